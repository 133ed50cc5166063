//! Scripts and answers, written out by hand.
mod faults;
mod limits;
mod printing;
mod reading;

use diego_names::Name;
use std::test::Fail;

fn name(text: &str) -> Result<Name, Fail> {
    Ok(Name::read(text.as_bytes())?)
}
