//! The lines of what a source has left.
ghost use Rattle.std.specs.Prelude.{◌≡◌, ◌≢◌, ◌+◌, ◌-◌, ◌<◌, ◌≤◌, ◌*◌, ◌==◌, ℕ, List, true, false, [], ◌∷◌, ◌++◌, length, take, vec_len, MatchBool, MatchResult, IsTrue, IfOk, OnOk, OnErr, if◌then◌else◌};
ghost use Rattle.ob_base.specs.Limits.{longest_line, most_taken};
ghost use Rattle.ob_io.specs.Causes.{HasCause, Rose};

use crate::Source;
use ob_base::{Failed, LONGEST_LINE, MOST_TAKEN, Memory};
use std::alloc::Global;

// How many bytes are asked of the source at once.
const PIECE: usize = 4096;

/// What comes next.
#[derive(Clone, Copy)]
pub enum Next {
    /// A line of at most `LONGEST_LINE` bytes.
    Line,
    /// A line of more bytes, which was read to its end.
    LongLine,
    /// The text has ended, and no line is left.
    End,
    /// The source failed. The part of a line that was read is lost.
    Fault,
    /// `MOST_TAKEN` bytes were taken, and the last of them that are no whole line are lost.
    Limit,
}

/// A reader of lines. It keeps the bytes that it took from the source and hasn't handed on.
#[derive(Drop)]
pub struct Lines {
    buffer: Vec<u8>,
    start: usize,
    end: usize,
    taken: u64,
    ended: bool,
    ghost in_order: { start ≤ end },
    ghost within: { end ≤ vec_len buffer },
    ghost room: { vec_len buffer ≡ 4096 },
    ghost few: { taken ≤ most_taken },
    ghost counted: { end - start ≤ taken },
    ghost ended_empty: { IsTrue ended → start ≡ end },
    ghost ended_within: { IsTrue ended → taken < most_taken },
}

impl Lines {
    ghost use Rattle.std.specs.List.{position};
    ghost use Rattle.ob_io.specs.Told.{Takes, TakesFrom, IsEnd};
    ghost use Rattle.ob_io.specs.Lines.{held, taken, handed, pending, has_ended, has_newline, IsSoFar, IsNext, HandsOn, CountsTaken, EndIsTold, HoldsNothing, HoldsAtStop, IsWithin};

    /// A reader that has taken no byte yet.
    pub fn new(alloc: Global) -> Result<Lines, Memory>
        ensures held { IfOk result (λ lines. held lines ≡ []) }
        ensures taken { IfOk result (λ lines. taken lines ≡ 0) }
        ensures handed { IfOk result (λ lines. handed lines ≡ 0) }
        ensures goes_on { IfOk result (λ lines. has_ended lines ≡ false) }
    {
        Ok(Lines {
            buffer: vec![in alloc; 0; PIECE]?,
            start: 0,
            end: 0,
            taken: 0,
            ended: false,
        })
    }

    // The first line of the bytes, where a newline ends it, and how many bytes it takes.
    fn newline_in(bytes: &[u8]) -> Option<usize>
        ensures { result ≡ position (λ b. b == 10) bytes.now }
    {
        bytes.iter().position(|b| *b == b'\n')
    }

    // Adds a piece of a line, and says whether the line is too long by now. Without memory the line is lost.
    fn add(line: &mut Vec<u8>, is_long: bool, piece: &[u8]) -> Result<bool, Memory>
        requires { length line.old.items ≤ longest_line }
        ensures so_far { IfOk result (λ long. (part : List ℕ) →
            IsSoFar is_long line.old.items part → IsSoFar long line.new.items (part ++ piece.now)) }
        ensures lost { OnErr result (line.new.items ≡ []) }
    {
        if is_long || piece.len() > LONGEST_LINE - line.len() {
            line.clear();
            return Ok(true);
        }
        if line.extend_from_slice(piece).is_err() {
            line.clear();
            return Err(Memory);
        }
        Ok(false)
    }

    // Hands on what is held, up to the first newline, and says whether it was there, and whether the line is
    // too long.
    fn hand_on(&mut self, line: &mut Vec<u8>, is_long: bool) -> Result<(bool, bool), Memory>
        requires { length line.old.items ≤ longest_line }
        ensures piece { IfOk result (λ got. (piece : List ℕ)
            × (has_newline piece ≡ false)
            × (handed self.new ≡ handed self.old + length piece + (if got.0 then 1 else 0))
            × MatchBool got.0 (held self.old ≡ piece ++ 10 ∷ held self.new)
            ((held self.old ≡ piece) × HoldsNothing self.new)
            × ((part : List ℕ) → IsSoFar is_long line.old.items part →
            IsSoFar got.1 line.new.items (part ++ piece))) }
        ensures lost { OnErr result (line.new.items ≡ []) }
        ensures same { (self.new.taken ≡ self.old.taken) × (self.new.ended ≡ self.old.ended) }
    {
        let bytes = &self.buffer[self.start..self.end];
        match Lines::newline_in(bytes) {
            Some(at) => {
                let is_long = Lines::add(line, is_long, &bytes[..at])?;
                self.start += at + 1;
                Ok((true, is_long))
            }
            None => {
                let is_long = Lines::add(line, is_long, bytes)?;
                self.start = self.end;
                Ok((false, is_long))
            }
        }
    }

    // Fills a front of the buffer, of at most so many bytes, and answers how many they are.
    fn fill<S: Source>(source: &mut S, buffer: &mut [u8], most: usize) -> Result<usize, Failed>
        requires { most ≤ length buffer.old }
        ensures bound { IfOk result (λ n. n ≤ most) }
        ensures bytes { MatchResult result
            (λ n. TakesFrom (S.view source.old) (S.view source.new) (take n buffer.new))
            (λ _. TakesFrom (S.view source.old) (S.view source.new) []) }
        ensures end { 0 < most → result ≡ Ok 0 → IsEnd (S.view source.new).left }
        ensures cause { HasCause (S.view source.old).faults (S.view source.new).faults result }
    {
        source.read(&mut buffer[..most])
    }

    // Takes the next bytes of the source, as many as there is a place for and may still be taken.
    fn refill<S: Source>(&mut self, source: &mut S) -> Result<(), Failed>
        requires few { self.old.taken < most_taken }
        requires empty { held self.old ≡ [] }
        requires goes_on { self.old.ended ≡ false }
        ensures bytes { Takes (S.view source.old).left (pending self.new (S.view source.new).left) [] }
        ensures count { handed self.new ≡ handed self.old }
        ensures taken { CountsTaken self.old self.new (S.view source.old) (S.view source.new) }
        ensures end { EndIsTold self.new (S.view source.new).left }
        ensures more { OnOk result (self.new.ended ≡ false → self.old.taken < self.new.taken) }
        ensures err { OnErr result ((self.new.ended ≡ false) × HoldsNothing self.new) }
        ensures empty { self.new.ended ≡ true → HoldsNothing self.new }
        ensures cause { HasCause (S.view source.old).faults (S.view source.new).faults result }
    {
        self.start = 0;
        self.end = 0;
        let most = (MOST_TAKEN - self.taken).min(PIECE as u64) as usize;
        let count = Lines::fill(source, &mut self.buffer, most)?;
        self.end = count;
        self.taken += count as u64;
        self.ended = count == 0;
        Ok(())
    }

    /// The next line, without its newline. A last line that no newline ends is a line where it isn't empty.
    /// For every other answer than `Line`, `line` is empty. After `Memory` the reader is to be dropped.
    pub fn next<S: Source>(&mut self, source: &mut S, line: &mut Vec<u8>) -> Result<Next, Memory>
        // Which line comes next: the bytes that it hands on are the next of those that are to come.
        ensures next { IfOk result (λ next. HandsOn self.old self.new
            (S.view source.old).left (S.view source.new).left
            (IsNext next (has_ended self.new) line.new.items)) }
        ensures line_empty { result ≢ Ok Next.Line → line.new.items ≡ [] }

        // After the end it reads no more.
        ensures goes_on { has_ended self.old ≡ true → result ≡ Ok Next.End }
        ensures idle { has_ended self.old ≡ true → source.new ≡ source.old }

        // The end is one.
        ensures end { EndIsTold self.old (S.view source.old).left → EndIsTold self.new (S.view source.new).left }
        ensures stop { IfOk result (λ next. HoldsAtStop next self.new) }

        // It takes no more than the limit, and stops where as much was taken and no line is left of it.
        ensures taken { CountsTaken self.old self.new (S.view source.old) (S.view source.new) }
        ensures bound { taken self.new ≤ most_taken }
        ensures within { IfOk result (λ next. IsWithin next (handed self.new)) }

        // At the first fault it stops: no read follows.
        ensures fault { result ≡ Ok Next.Fault → Rose (S.view source.old).faults (S.view source.new).faults }
        ensures later { (S.view source.old).faults ≤ (S.view source.new).faults }
        ensures calm { result ≢ Ok Next.Fault → (S.view source.new).faults ≡ (S.view source.old).faults }
        ensures once { (S.view source.new).faults ≤ (S.view source.old).faults + 1 }
    {
        line.clear();
        if self.ended {
            return Ok(Next::End);
        }
        let mut is_long = false;
        'pieces: loop {
            let (is_whole, long) = self.hand_on(line, is_long)?;
            is_long = long;
            if is_whole {
                return Ok(if is_long { Next::LongLine } else { Next::Line });
            }
            if self.taken >= MOST_TAKEN {
                line.clear();
                return Ok(Next::Limit);
            }
            if self.refill(source).is_err() {
                line.clear();
                return Ok(Next::Fault);
            }
            if self.ended {
                return Ok(if is_long {
                    Next::LongLine
                } else if line.is_empty() {
                    Next::End
                } else {
                    Next::Line
                });
            }
        }
    }
}
