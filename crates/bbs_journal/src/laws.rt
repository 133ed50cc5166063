//! What the definitions of an area and of an opening come to.
ghost use Rattle.bbs_journal.specs.Areas.{AreOne};
ghost use Rattle.bbs_journal.specs.Grammar.{AreOpened, AreRecovered, AreReady, OpensOnce};
ghost use Rattle.bbs_journal.specs.Newer.{NewerIsOpened, NewerIsRecovered, RecoversOnce};
ghost use Rattle.bbs_journal.specs.Outcomes.{OpensOrHasNoHead};
ghost use Rattle.bbs_journal.specs.Stops.{StopsAreOpened, AcknowledgedAreOpened};

/// The head and the bytes of an area tell its payloads.
pub fn an_area_holds_one_list_of_payloads()
    ensures { AreOne }
{}

/// What the grammar of an area describes is opened so.
pub fn what_is_recovered_is_opened()
    ensures { AreOpened }
{}

/// Two openings of one image agree in everything.
pub fn an_image_is_opened_once()
    ensures { OpensOnce }
{}

/// Each image is opened, or has no head that can be read, whatever stands in it.
pub fn an_image_is_opened_or_has_no_head()
    ensures { OpensOrHasNoHead }
{}

/// The grammar finds one journal in an image at most.
pub fn an_image_is_recovered_once()
    ensures { RecoversOnce }
{}

/// Where both areas are open, the one of the greater generation is the journal, or none is.
pub fn of_two_open_areas_the_newer_is_opened()
    ensures opened { NewerIsOpened }
    ensures recovered { NewerIsRecovered }
{}

/// What is opened without a defect is what the grammar describes.
pub fn what_is_opened_is_recovered()
    ensures { AreRecovered }
{}

/// A settled area takes the next frame where the frames that the grammar describes end.
pub fn what_is_recovered_takes_frames()
    ensures { AreReady }
{}

/// A stop during an append leaves what is opened as before it, or with the new payload.
pub fn a_stop_is_opened_before_or_after()
    ensures { StopsAreOpened }
{}

/// A stop after an append that was made leaves what is opened with the new payload.
pub fn what_is_acknowledged_is_opened()
    ensures { AcknowledgedAreOpened }
{}
