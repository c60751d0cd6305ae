// From a program's arguments to the box that it is.
ghost use Rattle.std.specs.Prelude.{◌≡◌};
ghost use Rattle.std.specs.Option.{option_map};
ghost use Rattle.box_run.specs.Asked.{in_yard, of_boxes, of_sixteen, sizes_of};

use crate::which::Which;
use messages::Yard;
use words::short_number;

// How many boxes there are if it isn't said.
const SIXTEEN: u8 = 16;

// A box of a yard, if there are such.
fn in_yard(number: u8, engines: u8, boxes: u8) -> Option<Which>
    ensures { option_map sizes_of result ≡ in_yard number engines boxes }
{
    let yard = Yard::new(boxes, engines)?;
    let number = yard.box_number(number)?;
    Some(Which { yard, number })
}

// `NUMBER ENGINES`, of sixteen boxes.
pub fn of_sixteen(which: &[u8], engines: &[u8]) -> Option<Which>
    ensures { option_map sizes_of result ≡ of_sixteen which.now engines.now }
{
    in_yard(short_number(which)?, short_number(engines)?, SIXTEEN)
}

// `NUMBER ENGINES BOXES`.
pub fn of_boxes(which: &[u8], engines: &[u8], boxes: &[u8]) -> Option<Which>
    ensures { option_map sizes_of result ≡ of_boxes which.now engines.now boxes.now }
{
    in_yard(
        short_number(which)?,
        short_number(engines)?,
        short_number(boxes)?,
    )
}
