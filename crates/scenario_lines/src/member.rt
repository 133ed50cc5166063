//! The members that lines have, and the word of each.
ghost use Rattle.std.specs.Prelude.{◌≡◌, ◌<◌};
ghost use Rattle.scenario_lines.specs.Places.{member_named, member_of_four, member_of_five, member_of_six, member_of_ten, place};

/// A member of a line. It means the same in each line that has it.
#[derive(Clone, Copy, Debug, PartialEq, Eq)]
pub enum Member {
    At,
    Client,
    Cell,
    Op,
    Lost,
    Times,
    Process,
    Domain,
    Instances,
    Memory,
    Disk,
    Tag,
    Route,
    Port,
    Index,
    Name,
    Zone,
    Containers,
    Ttl,
    Failed,
    LoseAsk,
    LoseStop,
    LoseStart,
    LoseReply,
}

impl Member {
    /// The place of a member among all, from 0.
    pub(crate) fn place(self) -> usize
        ensures is { result ≡ place self }
        ensures within { result < 24 }
    {
        match self {
            Member::At => 0,
            Member::Client => 1,
            Member::Cell => 2,
            Member::Op => 3,
            Member::Lost => 4,
            Member::Times => 5,
            Member::Process => 6,
            Member::Domain => 7,
            Member::Instances => 8,
            Member::Memory => 9,
            Member::Disk => 10,
            Member::Tag => 11,
            Member::Route => 12,
            Member::Port => 13,
            Member::Index => 14,
            Member::Name => 15,
            Member::Zone => 16,
            Member::Containers => 17,
            Member::Ttl => 18,
            Member::Failed => 19,
            Member::LoseAsk => 20,
            Member::LoseStop => 21,
            Member::LoseStart => 22,
            Member::LoseReply => 23,
        }
    }

    // The members whose words have four, five, six and ten bytes: `named` looks only among those of its
    // name's length.
    fn of_four(name: &str) -> Option<Member>
        ensures { result ≡ member_of_four name.now }
    {
        match name {
            "cell" => Some(Member::Cell),
            "lost" => Some(Member::Lost),
            "disk" => Some(Member::Disk),
            "port" => Some(Member::Port),
            "name" => Some(Member::Name),
            "zone" => Some(Member::Zone),
            _ => None,
        }
    }

    fn of_five(name: &str) -> Option<Member>
        ensures { result ≡ member_of_five name.now }
    {
        match name {
            "times" => Some(Member::Times),
            "route" => Some(Member::Route),
            "index" => Some(Member::Index),
            _ => None,
        }
    }

    fn of_six(name: &str) -> Option<Member>
        ensures { result ≡ member_of_six name.now }
    {
        match name {
            "client" => Some(Member::Client),
            "domain" => Some(Member::Domain),
            "memory" => Some(Member::Memory),
            "failed" => Some(Member::Failed),
            _ => None,
        }
    }

    fn of_ten(name: &str) -> Option<Member>
        ensures { result ≡ member_of_ten name.now }
    {
        match name {
            "containers" => Some(Member::Containers),
            "lose_start" => Some(Member::LoseStart),
            "lose_reply" => Some(Member::LoseReply),
            _ => None,
        }
    }

    /// The member of this name.
    pub(crate) fn named(name: &str) -> Option<Member>
        ensures { result ≡ member_named name.now }
    {
        match name.len() {
            2 => match name {
                "at" => Some(Member::At),
                "op" => Some(Member::Op),
                _ => None,
            },
            3 => match name {
                "tag" => Some(Member::Tag),
                "ttl" => Some(Member::Ttl),
                _ => None,
            },
            4 => Member::of_four(name),
            5 => Member::of_five(name),
            6 => Member::of_six(name),
            7 => match name {
                "process" => Some(Member::Process),
                _ => None,
            },
            8 => match name {
                "lose_ask" => Some(Member::LoseAsk),
                _ => None,
            },
            9 => match name {
                "instances" => Some(Member::Instances),
                "lose_stop" => Some(Member::LoseStop),
                _ => None,
            },
            10 => Member::of_ten(name),
            _ => None,
        }
    }
}
