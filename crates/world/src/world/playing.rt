// Each step: one input at one box, its records stored, what it sends added to all that was sent.
ghost use Rattle.std.specs.Prelude.{◌≡◌, [], ◌∷◌, ◌++◌, map, IfOk, OnOk};
ghost use Rattle.std.specs.Option.{option_map};
ghost use Rattle.boxes.specs.Model.{state_of};
ghost use Rattle.std.specs.List.{flat_map};
ghost use Rattle.world.specs.Station.{Restarts, delivered_at, handled_at, station_of};
ghost use Rattle.world.specs.World.{Found, Makes, Stops, answer_of, at_box, carried, carried_cut, cut_of, deliver_of, empty, envelope_for, envelope_of, free_of, second_of, sent_by, spoken, state_at, take_of, world_of};
ghost use Rattle.journal.specs.Effect.{said_of};
ghost use Rattle.world.specs.Turn.{Turned, TurnsAt};

use crate::envelope::Envelope;
use crate::station::Station;
use crate::step::{Outcome, Step};
use crate::world::World;
use boxes::{Input, SignalBox};
use journal::{OpenFault, Output, Said};
use messages::{BoxNumber, Engine, Message, Refusal, Section, Yard, encode};
use std::alloc::{AllocError, Global};

// Adds a message to all that was sent.
fn post(
    sent: &mut Vec<Envelope>,
    from: BoxNumber,
    to: BoxNumber,
    message: Message,
) -> Result<(), OpenFault>
    ensures { OnOk result (map envelope_of sent.new.items ≡ map envelope_of sent.old.items ++ envelope_for from to message ∷ []) }
{
    let bytes = encode(message);
    sent.push(Envelope { from, to, bytes })?;
    Ok(())
}

// Adds what an output of a box sends.
fn send(sent: &mut Vec<Envelope>, from: BoxNumber, output: Output) -> Result<(), OpenFault>
    ensures { OnOk result (map envelope_of sent.new.items ≡ map envelope_of sent.old.items ++ sent_by from output) }
{
    match output.sent() {
        Some((to, message)) => post(sent, from, to, message),
        None => Ok(()),
    }
}

// The same for all outputs, in their order.
fn send_all(sent: &mut Vec<Envelope>, from: BoxNumber, outputs: &[Output]) -> Result<(), OpenFault>
    ensures { OnOk result (map envelope_of sent.new.items ≡ map envelope_of sent.old.items ++ flat_map (sent_by from) outputs.now) }
{
    for output in outputs {
        send(sent, from, *output)?;
    }
    Ok(())
}

impl World {
    // Boxes of which there is no record yet.
    pub fn new(yard: Yard, heap: Global) -> Result<World, AllocError>
        ensures { IfOk result (λ w. world_of w ≡ empty yard) }
    {
        let mut stations = Vec::new(heap);
        // Stations are made by number, and the number is how many there are.
        for number in 0u8..yard.boxes {
            stations.push(Station::new(yard, BoxNumber(number), heap))?;
        }
        Ok(World {
            yard,
            heap,
            stations,
            sent: Vec::new(heap),
        })
    }

    pub fn yard(&self) -> Yard
        ensures { result ≡ self.now.yard }
    {
        self.yard
    }

    // All messages ever sent, in the order of sending.
    pub fn sent(&self) -> &[Envelope]
        ensures { map envelope_of result.now ≡ (world_of self.now).sent }
    {
        self.sent.as_slice()
    }

    pub fn signal_box(&self, number: BoxNumber) -> Option<&SignalBox>
        ensures { option_map (λ b. state_of b.now) result ≡ state_at (world_of self.now) number }
    {
        Some(self.stations.get(usize::from(number.0))?.state())
    }

    fn say(&mut self, from: BoxNumber, said: Said) -> Result<Outcome, OpenFault>
        ensures { IfOk result (λ out. (world_of self.new, answer_of out) ≡ spoken (world_of self.old) from (said_of said)) }
    {
        let before = self.sent.len();
        send_all(&mut self.sent, from, said.as_slice())?;
        Ok(Outcome::Said { from, before, said })
    }

    // A turn of one box: what it says is sent from there.
    fn turn_at<F: FnOnce(&mut Station) -> Result<Said, OpenFault>>(
        &mut self,
        at: BoxNumber,
        turn: F,
    ) -> Result<Outcome, OpenFault>
        requires { F.IsAlwaysCallable turn }
        ensures { IfOk result (λ out. TurnsAt (world_of self.old) at (Turned F.FnOnce turn) (world_of self.new, answer_of out)) }
    {
        let Some(station) = self.stations.get_mut(usize::from(at.0)) else {
            return Ok(Outcome::Refused(Refusal::Malformed));
        };
        let said = turn(station)?;
        self.say(at, said)
    }

    fn handle_at(&mut self, at: BoxNumber, input: Input) -> Result<Outcome, OpenFault>
        ensures { IfOk result (λ out. (world_of self.new, answer_of out) ≡ at_box (world_of self.old) at (handled_at input)) }
    {
        let heap = self.heap;
        self.turn_at(at, |station| station.handle(input, heap))
    }

    fn deliver_at(
        &mut self,
        at: BoxNumber,
        from: BoxNumber,
        bytes: &[u8],
    ) -> Result<Outcome, OpenFault>
        ensures { IfOk result (λ out. (world_of self.new, answer_of out) ≡ at_box (world_of self.old) at (delivered_at from bytes.now)) }
    {
        let heap = self.heap;
        self.turn_at(at, |station| station.deliver(from, bytes, heap))
    }

    // A message by its number, from 1 on.
    fn message(&self, number: usize) -> Option<Envelope>
        ensures { Found (world_of self.now) number result }
    {
        self.sent.get(number.checked_sub(1)?).copied()
    }

    fn carry(&mut self, envelope: Envelope) -> Result<Outcome, OpenFault>
        ensures { IfOk result (λ out. (world_of self.new, answer_of out) ≡ carried (world_of self.old) (envelope_of envelope)) }
    {
        self.deliver_at(envelope.to, envelope.from, envelope.bytes.as_slice())
    }

    fn carry_cut(&mut self, envelope: Envelope, length: usize) -> Result<Outcome, OpenFault>
        ensures { IfOk result (λ out. (world_of self.new, answer_of out) ≡ carried_cut (world_of self.old) length (envelope_of envelope)) }
    {
        let bytes = envelope.bytes.as_slice();
        if length >= bytes.len() {
            return Ok(Outcome::Refused(Refusal::Malformed));
        }
        self.deliver_at(envelope.to, envelope.from, &bytes[..length])
    }

    // It and `free` differ in the input that they make: a function of both would be longer than either.
    pub fn take(&mut self, engine: Engine, section: Section) -> Result<Outcome, OpenFault>
        ensures { IfOk result (λ out. (world_of self.new, answer_of out) ≡ take_of (world_of self.old) engine section) }
    {
        let at = self.yard.home(engine);
        self.handle_at(at, Input::Take { engine, section })
    }

    pub fn free(&mut self, engine: Engine, section: Section) -> Result<Outcome, OpenFault>
        ensures { IfOk result (λ out. (world_of self.new, answer_of out) ≡ free_of (world_of self.old) engine section) }
    {
        let at = self.yard.home(engine);
        self.handle_at(at, Input::Free { engine, section })
    }

    pub fn second(&mut self, at: BoxNumber) -> Result<Outcome, OpenFault>
        ensures { IfOk result (λ out. (world_of self.new, answer_of out) ≡ second_of (world_of self.old) at) }
    {
        self.handle_at(at, Input::Second)
    }

    // Delivers a message to the box that it is for; as often as one likes.
    pub fn deliver(&mut self, message: usize) -> Result<Outcome, OpenFault>
        ensures { IfOk result (λ out. (world_of self.new, answer_of out) ≡ deliver_of (world_of self.old) message) }
    {
        let Some(envelope) = self.message(message) else {
            return Ok(Outcome::Refused(Refusal::Malformed));
        };
        self.carry(envelope)
    }

    // Delivers only the first bytes of a message, less than all.
    pub fn cut(&mut self, message: usize, length: usize) -> Result<Outcome, OpenFault>
        ensures { IfOk result (λ out. (world_of self.new, answer_of out) ≡ cut_of (world_of self.old) message length) }
    {
        let Some(envelope) = self.message(message) else {
            return Ok(Outcome::Refused(Refusal::Malformed));
        };
        self.carry_cut(envelope, length)
    }

    // Stops a box, and opens it again.
    pub fn stop(&mut self, at: BoxNumber) -> Result<Outcome, OpenFault>
        ensures { IfOk result (λ out. Stops (world_of self.old) at (world_of self.new, answer_of out)) }
    {
        let heap = self.heap;
        let yard = self.yard;
        // The closure has its clause written: what a stop gives is a relation, and no equation.
        self.turn_at(
            at,
            move |station: &mut Station| -> Result<Said, OpenFault>
                ensures { IfOk result (λ said. Restarts yard at (station_of station.old) (station_of station.new, said_of said)) }
            { station.stop(yard, at, heap) },
        )
    }

    pub fn play(&mut self, step: Step) -> Result<Outcome, OpenFault>
        ensures { IfOk result (λ out. Makes (world_of self.old) step (world_of self.new, answer_of out)) }
    {
        match step {
            Step::Take { engine, section } => self.take(engine, section),
            Step::Free { engine, section } => self.free(engine, section),
            Step::Deliver { message } => self.deliver(message),
            Step::Cut { message, length } => self.cut(message, length),
            Step::Second(at) => self.second(at),
            Step::Stop(at) => self.stop(at),
        }
    }
}
