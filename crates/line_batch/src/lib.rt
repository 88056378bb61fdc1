//! A sink that hands on whole lines, as many as wait.
#![tactic(auto)]

ghost use Rattle.std.specs.Prelude.{◌≡◌, ℕ, ◌+◌, ◌-◌, ◌++◌, ◌∷◌, ◌<◌, ◌≤◌, Ok, true, false, List, [], length, take, drop, vec_len, vec_capacity, IfOk, IfErr};
ghost use Rattle.std.specs.Prelude.{OnOk, OnErr, None, is_err};
ghost use Rattle.std.specs.Io.BufRead.{ends_with_byte, take_through};
ghost use Rattle.std.specs.Io.KnownBytes.{Keeps, WriteAppends, append_known};
ghost use Rattle.tim_base.specs.Faults.{Rose};
ghost use Rattle.tim_base.specs.Logs.{HasSent, HasBroken};
ghost use Rattle.line_batch.specs.Batches.{EndsLine, AreLines, front_of, text_of};

use run_watch::{RunNumber, Watch};
use std::alloc::Global;
use std::marker::Model;
use tim_base::sink::{Sink, SinkFault, send};

#[cfg(test)]
mod tests;

/// A sink that is handed whole lines, as many as wait. A line waits behind those that wait already where they fit the room
/// together; else those go to the sink first, as one piece. A line that is longer than the room goes alone, as one piece
/// where there is memory for it. A line that is begun waits for its end. What a fault leaves goes on waiting. Contracts
/// see what the sink has taken and its writes, what waits, and the count of the sink's faults.
#[derive(Drop)]
pub struct Batch<W: Sink> {
    out: W,
    lines: Vec<u8>,
    begun: Vec<u8>,
    room: usize,
}

impl<W: Sink> Model for Batch<W> {
    ghost use Rattle.std.specs.Prelude.{◌≤◌, vec_len, vec_capacity};
    ghost use Rattle.line_batch.specs.Batches.{Held, AreLines};

    ghost Value = { Held };

    ghost view = { λ s. record {
      sent = W.taken s.out;
      log = W.log s.out;
      lines = s.lines.items;
      begun = s.begun.items;
      faults = W.faults s.out;
      room = s.room;
    } };

    ghost invariant = { λ s. (s.room ≤ vec_capacity s.lines) × (s.room ≤ vec_capacity s.begun) × (vec_len s.lines ≤ s.room) × AreLines s.lines.items };
}

impl<W: Sink> Batch<W> {
    /// A batch with room for so many bytes, whose memory is taken here. Where there is none, the sink is given back.
    pub fn new(alloc: Global, out: W, room: usize) -> Result<Batch<W>, W>
        ensures ok { IfOk result (λ b. b ≡ record { sent = W.taken out; log = W.log out; lines = []; begun = []; faults = W.faults out; room = room }) }
        ensures err { IfErr result (λ w. w ≡ out) }
    {
        let Ok(lines) = Vec::with_capacity(alloc, room) else {
            return Err(out);
        };
        let Ok(begun) = Vec::with_capacity(alloc, room) else {
            return Err(out);
        };
        Ok(Batch {
            out,
            lines,
            begun,
            room,
        })
    }

    /// Says what is true of every batch: what waits in front are whole lines, which fit the room.
    pub fn laws(&self)
        ensures lines { AreLines self.now.lines }
        ensures fit { length self.now.lines ≤ self.now.room }
    {
        let _ = &self.lines;
    }

    /// Whether whole lines wait.
    pub fn waits(&self) -> bool
        ensures none { result ≡ false → self.now.lines ≡ [] }
        ensures some { result ≡ true → 0 < length self.now.lines }
    {
        !self.lines.is_empty()
    }

    /// Hands the whole lines that wait to the sink, as one piece. A line that is begun goes on waiting.
    pub fn hand_on(&mut self) -> Result<(), SinkFault>
        ensures kept { Keeps (text_of self.old) (text_of self.new) }
        ensures empty { OnOk result (self.new.lines ≡ []) }
        ensures sent { OnOk result (HasSent self.old.log self.new.log (self.old.lines ∷ [])) }
        ensures broken { OnErr result (HasBroken self.old.log self.new.log (self.old.lines ∷ [])) }
        ensures begun { self.new.begun ≡ self.old.begun }
        ensures room { self.new.room ≡ self.old.room }
        ensures later { self.old.faults ≤ self.new.faults }
        ensures fault { OnErr result (Rose self.old.faults self.new.faults) }
    {
        hand_on(&mut self.out, &mut self.lines)
    }

    /// Hands all that waits to the sink: the whole lines, as one piece, and then the line that is begun.
    pub fn hand_all(&mut self) -> Result<(), SinkFault>
        ensures kept { Keeps (text_of self.old) (text_of self.new) }
        ensures empty { OnOk result ((self.new.lines ≡ []) × (self.new.begun ≡ [])) }
        ensures sent { OnOk result (HasSent self.old.log self.new.log (self.old.lines ∷ self.old.begun ∷ [])) }
        ensures room { self.new.room ≡ self.old.room }
        ensures later { self.old.faults ≤ self.new.faults }
        ensures fault { OnErr result (Rose self.old.faults self.new.faults) }
    {
        hand_all(&mut self.out, &mut self.lines, &mut self.begun)
    }

    /// Hands all that waits to the sink, the whole lines first, and gives the sink back.
    pub fn finish(self) -> (W, Result<(), SinkFault>)
        ensures kept { (rest : List ℕ) × Keeps (text_of self) (append_known (W.taken result.0) rest) × OnOk result.1 (rest ≡ []) }
        ensures sent { OnOk result.1 (HasSent self.log (W.log result.0) (self.lines ∷ self.begun ∷ [])) }
        ensures later { self.faults ≤ W.faults result.0 }
        ensures fault { OnErr result.1 (Rose self.faults (W.faults result.0)) }
    {
        let mut out = self.out;
        let mut lines = self.lines;
        let mut begun = self.begun;
        let result = hand_all(&mut out, &mut lines, &mut begun);
        (out, result)
    }
}

impl<W: Sink> Watch for Batch<W> {
    fn tell(&self, number: RunNumber, clock: u64, limit: u64) {
        self.out.tell(number, clock, limit);
    }

    fn clear(&self) {
        self.out.clear();
    }
}

impl<W: Sink> Sink for Batch<W> {
    ghost taken = { λ s. text_of s };

    ghost faults = { λ s. s.faults };

    ghost log = { λ _. None };

    fn write(&mut self, piece: &[u8]) -> Result<usize, SinkFault>
        ensures bound { IfOk result (λ n. n ≤ length piece.now) }
        ensures some { IfOk result (λ n. 0 < length piece.now → 0 < n) }
        ensures appended { WriteAppends (text_of self.old) (text_of self.new) result piece.now }
        ensures later { self.old.faults ≤ self.new.faults }
        ensures fault { OnErr result (Rose self.old.faults self.new.faults) }
        ensures room { self.new.room ≡ self.old.room }

        // Of a piece that is no lines, or more than fit the room, the first line is taken. Where that has no end, it waits as the
        // line that is begun.
        ensures begun { ends_with_byte 10 (front_of self.old.room piece.now) ≡ false
            → length self.old.begun + length (front_of self.old.room piece.now) ≤ self.old.room
            → (result ≡ Ok (length (front_of self.old.room piece.now)))
            × (self.new ≡ record self.old { begun = self.old.begun ++ front_of self.old.room piece.now }) }

        // What is whole lines waits behind those that wait, where they fit the room together.
        ensures line { ends_with_byte 10 (front_of self.old.room piece.now) ≡ true
            → length self.old.lines + (length self.old.begun + length (front_of self.old.room piece.now)) ≤ self.old.room
            → (result ≡ Ok (length (front_of self.old.room piece.now)))
            × (self.new ≡ record self.old { lines = self.old.lines ++ self.old.begun ++ front_of self.old.room piece.now; begun = [] }) }

        // Where they do not, those that wait go to the sink, as one piece, and the others wait.
        ensures full { ends_with_byte 10 (front_of self.old.room piece.now) ≡ true
            → self.old.room < length self.old.lines + (length self.old.begun + length (front_of self.old.room piece.now))
            → length self.old.begun + length (front_of self.old.room piece.now) ≤ self.old.room
            → OnOk result (HasSent self.old.log self.new.log (self.old.lines ∷ [])
            × (self.new.lines ≡ self.old.begun ++ front_of self.old.room piece.now) × (self.new.begun ≡ []))
            × OnErr result (HasBroken self.old.log self.new.log (self.old.lines ∷ []) × (self.new.begun ≡ self.old.begun)) }
    {
        put(
            &mut self.out,
            &mut self.lines,
            &mut self.begun,
            self.room,
            piece,
        )
    }
}

// How many bytes there are up to the first line feed, with it; where there is none, all.
fn line_end(piece: &[u8]) -> usize
    ensures bound { result ≤ length piece.now }
    ensures some { 0 < length piece.now → 0 < result }
    ensures first { take result piece.now ≡ take_through 10 piece.now }
{
    for place in 0..piece.len() {
        if piece[place] == b'\n' {
            return place + 1;
        }
    }
    piece.len()
}

// How many bytes of a piece are taken at once: all, where they are lines that fit the room, and else the first line.
fn front_end(room: usize, piece: &[u8]) -> usize
    ensures bound { result ≤ length piece.now }
    ensures some { 0 < length piece.now → 0 < result }
    ensures front { take result piece.now ≡ front_of room piece.now }
{
    if piece.len() <= room && ends_line(piece) {
        return piece.len();
    }
    line_end(piece)
}

// Whether a piece ends with a line feed.
fn ends_line(piece: &[u8]) -> bool
    ensures value { result ≡ ends_with_byte 10 piece.now }
    ensures ends { result ≡ true → EndsLine piece.now }
{
    if piece.is_empty() {
        return false;
    }
    if piece[piece.len() - 1] != b'\n' {
        return false;
    }
    true
}

// Takes the first bytes away.
fn drop_front(bytes: &mut Vec<u8>, count: usize)
    requires { count ≤ vec_len bytes.old }
    ensures items { bytes.new.items ≡ drop count bytes.old.items }
    ensures len { vec_len bytes.new ≡ vec_len bytes.old - count }
    ensures capacity { vec_capacity bytes.new ≡ vec_capacity bytes.old }
{
    let length = bytes.len();
    bytes.as_mut_slice().copy_within(count..length, 0);
    bytes.truncate(length - count);
}

// Hands what waits to the sink, as one piece. What a fault leaves of it goes on waiting.
#[tactic(auto, using(crate::proofs::BatchLemmas::AreLines_drop))]
fn hand_on<W: Sink>(out: &mut W, waiting: &mut Vec<u8>) -> Result<(), SinkFault>
    ensures kept { Keeps (append_known (W.taken out.old) waiting.old.items) (append_known (W.taken out.new) waiting.new.items) }
    ensures empty { OnOk result (waiting.new.items ≡ []) }
    ensures lines { AreLines waiting.old.items → AreLines waiting.new.items }
    ensures len { vec_len waiting.new ≤ vec_len waiting.old }
    ensures capacity { vec_capacity waiting.new ≡ vec_capacity waiting.old }
    ensures sent { OnOk result (HasSent (W.log out.old) (W.log out.new) (waiting.old.items ∷ [])) }
    ensures broken { OnErr result (HasBroken (W.log out.old) (W.log out.new) (waiting.old.items ∷ [])) }
    ensures later { W.faults out.old ≤ W.faults out.new }
    ensures fault { OnErr result (Rose (W.faults out.old) (W.faults out.new)) }
{
    let (count, result) = send(out, waiting.as_slice());
    drop_front(waiting, count);
    result
}

// Hands the lines that wait to the sink, and then the line that is begun.
#[tactic(auto, using(crate::proofs::BatchLemmas::Keeps_behind))]
fn hand_all<W: Sink>(out: &mut W, lines: &mut Vec<u8>, begun: &mut Vec<u8>) -> Result<(), SinkFault>
    ensures kept { Keeps (append_known (W.taken out.old) (lines.old.items ++ begun.old.items))
        (append_known (W.taken out.new) (lines.new.items ++ begun.new.items)) }
    ensures empty { OnOk result ((lines.new.items ≡ []) × (begun.new.items ≡ [])) }
    ensures lines { AreLines lines.old.items → AreLines lines.new.items }
    ensures len { vec_len lines.new ≤ vec_len lines.old }
    ensures capacity { vec_capacity lines.new ≡ vec_capacity lines.old }
    ensures begun_capacity { vec_capacity begun.new ≡ vec_capacity begun.old }
    ensures sent { OnOk result (HasSent (W.log out.old) (W.log out.new) (lines.old.items ∷ begun.old.items ∷ [])) }
    ensures later { W.faults out.old ≤ W.faults out.new }
    ensures fault { OnErr result (Rose (W.faults out.old) (W.faults out.new)) }
{
    hand_on(out, lines)?;
    hand_on(out, begun)
}

// Hands all that waits to the sink, and then some bytes, as they are.
fn put_on<W: Sink>(
    out: &mut W,
    lines: &mut Vec<u8>,
    begun: &mut Vec<u8>,
    bytes: &[u8],
) -> Result<usize, SinkFault>
    ensures bound { IfOk result (λ n. n ≤ length bytes.now) }
    ensures some { IfOk result (λ n. 0 < length bytes.now → 0 < n) }
    ensures appended { WriteAppends (append_known (W.taken out.old) (lines.old.items ++ begun.old.items))
        (append_known (W.taken out.new) (lines.new.items ++ begun.new.items)) result bytes.now }
    ensures lines { AreLines lines.old.items → AreLines lines.new.items }
    ensures len { vec_len lines.new ≤ vec_len lines.old }
    ensures capacity { vec_capacity lines.new ≡ vec_capacity lines.old }
    ensures begun_capacity { vec_capacity begun.new ≡ vec_capacity begun.old }
    ensures later { W.faults out.old ≤ W.faults out.new }
    ensures fault { OnErr result (Rose (W.faults out.old) (W.faults out.new)) }
{
    hand_all(out, lines, begun)?;
    out.write(bytes)
}

// Takes the beginning of a line, or more of it. Where there is no memory for it, all is handed to the sink.
fn begin<W: Sink>(
    out: &mut W,
    lines: &mut Vec<u8>,
    begun: &mut Vec<u8>,
    first: &[u8],
) -> Result<usize, SinkFault>
    ensures bound { IfOk result (λ n. n ≤ length first.now) }
    ensures some { IfOk result (λ n. 0 < length first.now → 0 < n) }
    ensures appended { WriteAppends (append_known (W.taken out.old) (lines.old.items ++ begun.old.items))
        (append_known (W.taken out.new) (lines.new.items ++ begun.new.items)) result first.now }
    ensures lines { AreLines lines.old.items → AreLines lines.new.items }
    ensures len { vec_len lines.new ≤ vec_len lines.old }
    ensures capacity { vec_capacity lines.new ≡ vec_capacity lines.old }
    ensures begun_capacity { vec_capacity begun.old ≤ vec_capacity begun.new }
    ensures later { W.faults out.old ≤ W.faults out.new }
    ensures fault { OnErr result (Rose (W.faults out.old) (W.faults out.new)) }
    ensures waits { vec_len begun.old + length first.now ≤ vec_capacity begun.old
        → (result ≡ Ok (length first.now)) × (out.new ≡ out.old) × (lines.new ≡ lines.old) × (begun.new.items ≡ begun.old.items ++ first.now) }
{
    match begun.extend_from_slice(first) {
        Ok(()) => Ok(first.len()),
        Err(_) => put_on(out, lines, begun, first),
    }
}

// Appends bytes for which there is room.
fn append(waiting: &mut Vec<u8>, bytes: &[u8])
    requires { vec_len waiting.old + length bytes.now ≤ vec_capacity waiting.old }
    ensures items { waiting.new.items ≡ waiting.old.items ++ bytes.now }
    ensures capacity { vec_capacity waiting.old ≤ vec_capacity waiting.new }
{
    match waiting.extend_from_slice(bytes) {
        Ok(()) => {}
        Err(_) => unreachable!(),
    }
}

// Hands what waits to the sink where a line does not fit behind it.
fn make_room<W: Sink>(
    out: &mut W,
    lines: &mut Vec<u8>,
    room: usize,
    line: usize,
) -> Result<(), SinkFault>
    requires within { vec_len lines.old ≤ room }
    requires fits { line ≤ room }
    ensures kept { Keeps (append_known (W.taken out.old) lines.old.items) (append_known (W.taken out.new) lines.new.items) }
    ensures room { OnOk result (vec_len lines.new + line ≤ room) }
    ensures lines { AreLines lines.old.items → AreLines lines.new.items }
    ensures len { vec_len lines.new ≤ vec_len lines.old }
    ensures capacity { vec_capacity lines.new ≡ vec_capacity lines.old }
    ensures later { W.faults out.old ≤ W.faults out.new }
    ensures fault { OnErr result (Rose (W.faults out.old) (W.faults out.new)) }
    ensures waits { vec_len lines.old + line ≤ room → (is_err result ≡ false) × (out.new ≡ out.old) × (lines.new ≡ lines.old) }
    ensures sent { room < vec_len lines.old + line → OnOk result ((lines.new.items ≡ []) × HasSent (W.log out.old) (W.log out.new) (lines.old.items ∷ [])) }
    ensures broken { room < vec_len lines.old + line → OnErr result (HasBroken (W.log out.old) (W.log out.new) (lines.old.items ∷ [])) }
{
    if line > room - lines.len() {
        return hand_on(out, lines);
    }
    Ok(())
}

// Puts the line that is begun, with its end, behind the lines that wait, and answers how long the end is.
#[tactic(auto, using(crate::proofs::BatchLemmas::ended_lines))]
fn join(lines: &mut Vec<u8>, begun: &mut Vec<u8>, first: &[u8]) -> usize
    requires room { vec_len lines.old + (vec_len begun.old + length first.now) ≤ vec_capacity lines.old }
    requires ends { EndsLine first.now }
    ensures value { result ≡ length first.now }
    ensures items { lines.new.items ≡ lines.old.items ++ begun.old.items ++ first.now }
    ensures lines { AreLines lines.new.items }
    ensures capacity { vec_capacity lines.old ≤ vec_capacity lines.new }
    ensures begun { begun.new.items ≡ [] }
    ensures begun_capacity { vec_capacity begun.new ≡ vec_capacity begun.old }
{
    append(lines, begun.as_slice());
    begun.clear();
    append(lines, first);
    first.len()
}

// Takes the end of a line that fits the room.
#[tactic(auto, using(crate::proofs::BatchLemmas::Keeps_behind))]
fn put_line<W: Sink>(
    out: &mut W,
    lines: &mut Vec<u8>,
    begun: &mut Vec<u8>,
    room: usize,
    first: &[u8],
) -> Result<usize, SinkFault>
    requires within { vec_len lines.old ≤ room }
    requires capacity { room ≤ vec_capacity lines.old }
    requires fits { vec_len begun.old + length first.now ≤ room }
    requires ends { EndsLine first.now }
    ensures bound { IfOk result (λ n. n ≤ length first.now) }
    ensures some { IfOk result (λ n. 0 < length first.now → 0 < n) }
    ensures appended { WriteAppends (append_known (W.taken out.old) (lines.old.items ++ begun.old.items))
        (append_known (W.taken out.new) (lines.new.items ++ begun.new.items)) result first.now }
    ensures lines { AreLines lines.old.items → AreLines lines.new.items }
    ensures len { vec_len lines.new ≤ room }
    ensures capacity { room ≤ vec_capacity lines.new }
    ensures begun_capacity { vec_capacity begun.old ≤ vec_capacity begun.new }
    ensures later { W.faults out.old ≤ W.faults out.new }
    ensures fault { OnErr result (Rose (W.faults out.old) (W.faults out.new)) }
    ensures waits { vec_len lines.old + (vec_len begun.old + length first.now) ≤ room
        → (result ≡ Ok (length first.now)) × (out.new ≡ out.old)
        × (lines.new.items ≡ lines.old.items ++ begun.old.items ++ first.now) × (begun.new.items ≡ []) }
    ensures full { room < vec_len lines.old + (vec_len begun.old + length first.now)
        → OnOk result (HasSent (W.log out.old) (W.log out.new) (lines.old.items ∷ [])
        × (lines.new.items ≡ begun.old.items ++ first.now) × (begun.new.items ≡ []))
        × OnErr result (HasBroken (W.log out.old) (W.log out.new) (lines.old.items ∷ []) × (begun.new.items ≡ begun.old.items)) }
{
    match make_room(out, lines, room, begun.len() + first.len()) {
        Ok(()) => Ok(join(lines, begun, first)),
        Err(fault) => Err(fault),
    }
}

// Hands the line that is begun to the sink, with its end behind it, as one piece where there is memory for it. What a fault
// leaves of what waited goes on waiting, and the end is taken as far as the sink took it.
#[tactic(auto, using(crate::proofs::BatchLemmas::appends_behind))]
fn send_line<W: Sink>(out: &mut W, begun: &mut Vec<u8>, first: &[u8]) -> Result<usize, SinkFault>
    ensures bound { IfOk result (λ n. n ≤ length first.now) }
    ensures some { IfOk result (λ n. 0 < length first.now → 0 < n) }
    ensures appended { WriteAppends (append_known (W.taken out.old) begun.old.items) (append_known (W.taken out.new) begun.new.items) result first.now }
    ensures capacity { vec_capacity begun.old ≤ vec_capacity begun.new }
    ensures later { W.faults out.old ≤ W.faults out.new }
    ensures fault { OnErr result (Rose (W.faults out.old) (W.faults out.new)) }
{
    let before = begun.len();
    if begun.extend_from_slice(first).is_err() {
        hand_on(out, begun)?;
        return out.write(first);
    }
    let (count, result) = send(out, begun.as_slice());
    begun.truncate(before);
    if count > before {
        begun.clear();
        return Ok(count - before);
    }
    drop_front(begun, count);
    match result {
        Ok(()) => Ok(0),
        Err(fault) => Err(fault),
    }
}

// Takes the end of a line that is longer than the room: what waits goes to the sink, and the line behind it, alone.
#[tactic(auto, using(crate::proofs::BatchLemmas::Keeps_behind))]
fn put_long<W: Sink>(
    out: &mut W,
    lines: &mut Vec<u8>,
    begun: &mut Vec<u8>,
    first: &[u8],
) -> Result<usize, SinkFault>
    ensures bound { IfOk result (λ n. n ≤ length first.now) }
    ensures some { IfOk result (λ n. 0 < length first.now → 0 < n) }
    ensures appended { WriteAppends (append_known (W.taken out.old) (lines.old.items ++ begun.old.items))
        (append_known (W.taken out.new) (lines.new.items ++ begun.new.items)) result first.now }
    ensures lines { AreLines lines.old.items → AreLines lines.new.items }
    ensures len { vec_len lines.new ≤ vec_len lines.old }
    ensures capacity { vec_capacity lines.new ≡ vec_capacity lines.old }
    ensures begun_capacity { vec_capacity begun.old ≤ vec_capacity begun.new }
    ensures later { W.faults out.old ≤ W.faults out.new }
    ensures fault { OnErr result (Rose (W.faults out.old) (W.faults out.new)) }
{
    match hand_on(out, lines) {
        Ok(()) => send_line(out, begun, first),
        Err(fault) => Err(fault),
    }
}

// Takes the first line of a piece, or what there is of one.
fn put_first<W: Sink>(
    out: &mut W,
    lines: &mut Vec<u8>,
    begun: &mut Vec<u8>,
    room: usize,
    first: &[u8],
) -> Result<usize, SinkFault>
    requires within { vec_len lines.old ≤ room }
    requires capacity { room ≤ vec_capacity lines.old }
    requires begun_capacity { room ≤ vec_capacity begun.old }
    ensures bound { IfOk result (λ n. n ≤ length first.now) }
    ensures some { IfOk result (λ n. 0 < length first.now → 0 < n) }
    ensures appended { WriteAppends (append_known (W.taken out.old) (lines.old.items ++ begun.old.items))
        (append_known (W.taken out.new) (lines.new.items ++ begun.new.items)) result first.now }
    ensures lines { AreLines lines.old.items → AreLines lines.new.items }
    ensures len { vec_len lines.new ≤ room }
    ensures capacity { room ≤ vec_capacity lines.new }
    ensures begun_capacity { room ≤ vec_capacity begun.new }
    ensures later { W.faults out.old ≤ W.faults out.new }
    ensures fault { OnErr result (Rose (W.faults out.old) (W.faults out.new)) }
    ensures begun { ends_with_byte 10 first.now ≡ false → vec_len begun.old + length first.now ≤ room
        → (result ≡ Ok (length first.now)) × (out.new ≡ out.old) × (lines.new.items ≡ lines.old.items) × (begun.new.items ≡ begun.old.items ++ first.now) }
    ensures line { ends_with_byte 10 first.now ≡ true → vec_len lines.old + (vec_len begun.old + length first.now) ≤ room
        → (result ≡ Ok (length first.now)) × (out.new ≡ out.old)
        × (lines.new.items ≡ lines.old.items ++ begun.old.items ++ first.now) × (begun.new.items ≡ []) }
    ensures full { ends_with_byte 10 first.now ≡ true → room < vec_len lines.old + (vec_len begun.old + length first.now)
        → vec_len begun.old + length first.now ≤ room
        → OnOk result (HasSent (W.log out.old) (W.log out.new) (lines.old.items ∷ [])
        × (lines.new.items ≡ begun.old.items ++ first.now) × (begun.new.items ≡ []))
        × OnErr result (HasBroken (W.log out.old) (W.log out.new) (lines.old.items ∷ []) × (begun.new.items ≡ begun.old.items)) }
{
    if !ends_line(first) {
        return begin(out, lines, begun, first);
    }
    if first.len() > room || begun.len() > room - first.len() {
        return put_long(out, lines, begun, first);
    }
    put_line(out, lines, begun, room, first)
}

// Takes a piece that is lines, or the first line of one.
fn put<W: Sink>(
    out: &mut W,
    lines: &mut Vec<u8>,
    begun: &mut Vec<u8>,
    room: usize,
    piece: &[u8],
) -> Result<usize, SinkFault>
    requires within { vec_len lines.old ≤ room }
    requires capacity { room ≤ vec_capacity lines.old }
    requires begun_capacity { room ≤ vec_capacity begun.old }
    ensures bound { IfOk result (λ n. n ≤ length piece.now) }
    ensures some { IfOk result (λ n. 0 < length piece.now → 0 < n) }
    ensures appended { WriteAppends (append_known (W.taken out.old) (lines.old.items ++ begun.old.items))
        (append_known (W.taken out.new) (lines.new.items ++ begun.new.items)) result piece.now }
    ensures lines { AreLines lines.old.items → AreLines lines.new.items }
    ensures len { vec_len lines.new ≤ room }
    ensures capacity { room ≤ vec_capacity lines.new }
    ensures begun_capacity { room ≤ vec_capacity begun.new }
    ensures later { W.faults out.old ≤ W.faults out.new }
    ensures fault { OnErr result (Rose (W.faults out.old) (W.faults out.new)) }
    ensures begun { ends_with_byte 10 (front_of room piece.now) ≡ false → length begun.old.items + length (front_of room piece.now) ≤ room
        → (result ≡ Ok (length (front_of room piece.now))) × (out.new ≡ out.old) × (lines.new.items ≡ lines.old.items)
        × (begun.new.items ≡ begun.old.items ++ front_of room piece.now) }
    ensures line { ends_with_byte 10 (front_of room piece.now) ≡ true
        → length lines.old.items + (length begun.old.items + length (front_of room piece.now)) ≤ room
        → (result ≡ Ok (length (front_of room piece.now))) × (out.new ≡ out.old)
        × (lines.new.items ≡ lines.old.items ++ begun.old.items ++ front_of room piece.now) × (begun.new.items ≡ []) }
    ensures full { ends_with_byte 10 (front_of room piece.now) ≡ true
        → room < length lines.old.items + (length begun.old.items + length (front_of room piece.now))
        → length begun.old.items + length (front_of room piece.now) ≤ room
        → OnOk result (HasSent (W.log out.old) (W.log out.new) (lines.old.items ∷ [])
        × (lines.new.items ≡ begun.old.items ++ front_of room piece.now) × (begun.new.items ≡ []))
        × OnErr result (HasBroken (W.log out.old) (W.log out.new) (lines.old.items ∷ []) × (begun.new.items ≡ begun.old.items)) }
{
    let front = front_end(room, piece);
    put_first(out, lines, begun, room, &piece[..front])
}
