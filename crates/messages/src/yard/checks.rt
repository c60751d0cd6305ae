// What is in range, tested.
ghost use Rattle.std.specs.Prelude.{◌≡◌};
ghost use Rattle.messages.specs.Homes.{home_of};
ghost use Rattle.messages.specs.Reading.{box_of, engine_of, holder_of, section_of};
ghost use Rattle.messages.specs.Range.{YardMade};

use crate::yard::{BoxNumber, Engine, MOST_BOXES, MOST_ENGINES, NOBODY, PLACES, Section, Yard};

impl Yard {
    // A yard of `boxes` boxes and `engines` engines, if there are 1 to 16 and 1 to 64 of them.
    pub fn new(boxes: u8, engines: u8) -> Option<Yard>
        ensures { YardMade boxes engines result }
    {
        // Tried with `then`: its closure doesn't know of the test by which a yard's sizes fit.
        if (1..=MOST_BOXES).contains(&boxes) && (1..=MOST_ENGINES).contains(&engines) {
            Some(Yard { boxes, engines })
        } else {
            None
        }
    }

    pub fn engine(self, number: u8) -> Option<Engine>
        ensures { result ≡ engine_of self number }
    {
        (number < self.engines).then_some(Engine(number))
    }

    pub fn box_number(self, number: u8) -> Option<BoxNumber>
        ensures { result ≡ box_of self number }
    {
        (number < self.boxes).then_some(BoxNumber(number))
    }

    pub fn section(self, keeper: u8, place: u8) -> Option<Section>
        ensures { result ≡ section_of self keeper place }
    {
        let keeper = self.box_number(keeper)?;
        (place < PLACES).then_some(Section { keeper, place })
    }

    // The home of an engine: the box that its number leaves when divided by the number of boxes.
    pub fn home(self, engine: Engine) -> BoxNumber
        ensures { result ≡ home_of self engine }
    {
        BoxNumber(engine.0 % self.boxes)
    }

    // Who has a section, by its byte: None where there is no such engine, and Some(None) for nobody.
    pub(crate) fn holder(self, number: u8) -> Option<Option<Engine>>
        ensures { result ≡ holder_of self number }
    {
        if number == NOBODY {
            return Some(None);
        }
        self.engine(number).map(Some)
    }
}
