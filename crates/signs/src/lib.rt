// An engine that waits for another, and its signs: it begins to wait, hears what is told, and finds that it stands in a ring of waits.
#![tactic(auto)]

ghost use Rattle.std.specs.Prelude.{◌≡◌, ◌^◌, ◌<◌, ◌≤◌, IfOk, if◌then◌else◌};
ghost use Rattle.signs.specs.Signs.{number_of, ahead_of, next_own, waits_by, begin_of, hear_of, find_of, listen_of};
ghost use Rattle.signs.specs.Lowest.{Lowest};
ghost use Rattle.std.specs.Option.{SomeIff};

pub mod table;

use table::ENGINES;

// One engine by value. `wait`: for whom it waits. `count`: how often it has begun to wait. `shown`: the sign that it shows. `own`: the sign that it took when it last began.
#[derive(Clone, Copy, PartialEq, Eq, Debug)]
pub struct Engine {
    pub wait: Option<u8>,
    pub count: u32,
    pub shown: u64,
    pub own: u64,
}

// What is refused, and nothing changes then. Each has the number that the yard's refusals are told by.
#[derive(Clone, Copy, PartialEq, Eq, Debug)]
pub enum Refusal {
    OutOfRange = 1,
    Itself = 4,
    Stale = 6,
    Limit = 7,
}

// What comes of a sign: it is told on to those that wait for this engine, the engine stands in a ring, or nothing.
#[derive(Clone, Copy, PartialEq, Eq, Debug)]
pub enum Heard {
    TellOn(u64),
    Found,
    PassedOver,
}

impl Refusal {
    pub fn number(self) -> u8
        ensures { result ≡ number_of self }
    {
        self as u8
    }
}

// How far above `shown` the lowest number is that leaves `me` when divided by `engines`.
fn ahead(shown: u64, me: u8, engines: u8) -> u64
    requires { me < engines }
    ensures { result ≡ ahead_of shown me engines }
{
    let left = shown % engines as u64;
    if left < me as u64 {
        me as u64 - left
    } else {
        me as u64 + engines as u64 - left
    }
}

// The lowest number above `shown` that leaves `me` when divided by `engines`; none where it passes eight bytes.
fn next_own(shown: u64, me: u8, engines: u8) -> Option<u64>
    requires { me < engines }
    ensures value { SomeIff result (next_own shown me engines < 2 ^ 64) (next_own shown me engines) }
    ensures lowest { Lowest shown me engines (next_own shown me engines) }
{
    shown.checked_add(ahead(shown, me, engines))
}

impl Engine {
    // Begins to wait for `whom`, also where it waited for another before.
    pub fn begin(self, me: u8, engines: u8, whom: u8) -> Result<Engine, Refusal>
        ensures value { result ≡ begin_of self me engines whom }
        ensures lowest { IfOk result (λ e. Lowest self.shown me engines e.own) }
    {
        if engines == 0 || engines > ENGINES || me >= engines || whom >= engines {
            return Err(Refusal::OutOfRange);
        }
        if whom == me {
            return Err(Refusal::Itself);
        }
        let own = next_own(self.shown, me, engines).ok_or(Refusal::Limit)?;
        let count = self.count.checked_add(1).ok_or(Refusal::Limit)?;
        Ok(Engine {
            wait: Some(whom),
            count,
            shown: own,
            own,
        })
    }

    // Refuses what is told of another wait than the one for `by` since its `count`-th beginning.
    fn check_wait(self, by: u8, count: u32) -> Result<(), Refusal>
        ensures { result ≡ (if waits_by self by count then Ok tt else Err Refusal.Stale) }
    {
        if self.wait == Some(by) && self.count == count {
            Ok(())
        } else {
            Err(Refusal::Stale)
        }
    }

    // A sign told by `by`: one above the sign shown is shown and told on.
    // Teller, count and sign stay plain numbers, and so do an engine and how many there are: a type for them here would be taken apart again at each call.
    pub fn hear(self, by: u8, count: u32, sign: u64) -> Result<(Engine, Heard), Refusal>
        ensures { result ≡ hear_of self by count sign }
    {
        self.check_wait(by, count)?;
        if self.shown < sign {
            let after = Engine {
                shown: sign,
                ..self
            };
            return Ok((after, Heard::TellOn(sign)));
        }
        Ok((self, Heard::PassedOver))
    }

    // A sign told by `by`: its own, and shown, has come round the ring, and the engine waits no more.
    pub fn find(self, by: u8, count: u32, sign: u64) -> Result<(Engine, Heard), Refusal>
        ensures { result ≡ find_of self by count sign }
    {
        self.check_wait(by, count)?;
        if sign == self.own && self.shown == self.own {
            let after = Engine { wait: None, ..self };
            return Ok((after, Heard::Found));
        }
        Ok((self, Heard::PassedOver))
    }

    // A sign told by `by`: heard, or else found, or else passed over.
    pub fn listen(self, by: u8, count: u32, sign: u64) -> Result<(Engine, Heard), Refusal>
        ensures { result ≡ listen_of self by count sign }
    {
        if sign > self.shown {
            self.hear(by, count, sign)
        } else {
            self.find(by, count, sign)
        }
    }
}
