//! The members of each form: those that it needs, and those that it may have besides.
ghost use Rattle.std.specs.Prelude.{◌≡◌};
ghost use Rattle.scenario_lines.specs.Forms.{allows, cell_allows, cell_needs, client_allows, client_needs, needs};

use crate::form::{CellOp, ClientOp, Form};
use crate::member::Member;

impl ClientOp {
    fn needs(self) -> &'static [Member]
        ensures { result.now ≡ client_needs self }
    {
        match self {
            ClientOp::Desire => &[
                Member::Client,
                Member::Op,
                Member::Process,
                Member::Domain,
                Member::Instances,
                Member::Memory,
                Member::Disk,
            ],
            ClientOp::Update => &[
                Member::Client,
                Member::Op,
                Member::Process,
                Member::Instances,
            ],
            ClientOp::Undesire => &[Member::Client, Member::Op, Member::Process],
            ClientOp::Restart => &[Member::Client, Member::Op, Member::Process, Member::Index],
            ClientOp::Task => &[
                Member::Client,
                Member::Op,
                Member::Name,
                Member::Memory,
                Member::Disk,
            ],
            ClientOp::Cancel => &[Member::Client, Member::Op, Member::Name],
            ClientOp::Resolve => &[Member::Client, Member::Op, Member::Name],
            ClientOp::Delete => &[Member::Client, Member::Op, Member::Name],
            ClientOp::Fresh => &[Member::Client, Member::Op, Member::Domain],
        }
    }

    fn allows(self) -> &'static [Member]
        ensures { result.now ≡ client_allows self }
    {
        match self {
            ClientOp::Desire => &[
                Member::Lost,
                Member::Times,
                Member::Tag,
                Member::Route,
                Member::Port,
            ],
            ClientOp::Update => &[Member::Lost, Member::Times, Member::Route, Member::Port],
            ClientOp::Undesire => &[Member::Lost, Member::Times],
            ClientOp::Restart => &[Member::Lost, Member::Times],
            ClientOp::Task => &[Member::Lost, Member::Times, Member::Tag],
            ClientOp::Cancel => &[Member::Lost, Member::Times],
            ClientOp::Resolve => &[Member::Lost, Member::Times],
            ClientOp::Delete => &[Member::Lost, Member::Times],
            ClientOp::Fresh => &[Member::Lost, Member::Times, Member::Ttl],
        }
    }
}

impl CellOp {
    fn needs(self) -> &'static [Member]
        ensures { result.now ≡ cell_needs self }
    {
        match self {
            CellOp::Join => &[
                Member::Cell,
                Member::Op,
                Member::Zone,
                Member::Memory,
                Member::Disk,
                Member::Containers,
                Member::Ttl,
            ],
            CellOp::Renew => &[Member::Cell, Member::Op, Member::Ttl],
            CellOp::ClaimTask => &[
                Member::Cell,
                Member::Op,
                Member::Name,
                Member::Memory,
                Member::Disk,
            ],
            CellOp::ClaimInstance | CellOp::Run => &[
                Member::Cell,
                Member::Op,
                Member::Process,
                Member::Index,
                Member::Memory,
                Member::Disk,
            ],
            CellOp::UpAll => &[Member::Cell, Member::Op],
            CellOp::UpInstance => &[Member::Cell, Member::Op, Member::Process, Member::Index],
            CellOp::UpTask => &[Member::Cell, Member::Op, Member::Name],
            CellOp::Crash => &[Member::Cell, Member::Op, Member::Process, Member::Index],
            CellOp::Finish => &[Member::Cell, Member::Op, Member::Name],
            CellOp::Settle => &[Member::Cell, Member::Op],
            CellOp::Evacuate => &[Member::Cell, Member::Op],
            CellOp::Die => &[Member::Cell, Member::Op],
        }
    }

    fn allows(self) -> &'static [Member]
        ensures { result.now ≡ cell_allows self }
    {
        match self {
            CellOp::Join => &[Member::Lost, Member::Times, Member::Tag],
            CellOp::Renew => &[Member::Lost, Member::Times],
            CellOp::ClaimInstance => &[Member::Lost, Member::Times],
            CellOp::ClaimTask => &[Member::Lost, Member::Times],
            CellOp::Run => &[Member::Lost, Member::Times],
            CellOp::UpAll => &[Member::Lost, Member::Times],
            CellOp::UpInstance => &[Member::Lost, Member::Times],
            CellOp::UpTask => &[Member::Lost, Member::Times],
            CellOp::Crash => &[Member::Lost, Member::Times],
            CellOp::Finish => &[Member::Lost, Member::Times, Member::Failed],
            CellOp::Settle => &[Member::Lost, Member::Times],
            CellOp::Evacuate => &[Member::Lost, Member::Times],
            CellOp::Die => &[Member::Lost, Member::Times],
        }
    }
}

impl Form {
    /// The members that a line of this form needs.
    pub(crate) fn needs(self) -> &'static [Member]
        ensures { result.now ≡ needs self }
    {
        match self {
            Form::At => &[Member::At],
            Form::Round => &[Member::Op],
            Form::Client(op) => op.needs(),
            Form::Cell(op) => op.needs(),
        }
    }

    /// The members that it may have besides.
    pub(crate) fn allows(self) -> &'static [Member]
        ensures { result.now ≡ allows self }
    {
        match self {
            Form::At => &[],
            Form::Round => &[
                Member::LoseAsk,
                Member::LoseStop,
                Member::LoseStart,
                Member::LoseReply,
            ],
            Form::Client(op) => op.allows(),
            Form::Cell(op) => op.allows(),
        }
    }
}
