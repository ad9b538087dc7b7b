// Glob patterns (`specs/Glob.antt` of `command_spec`). What follows the last star is compared with the name's end first. Then only the
// last star passed is retried, so the work is at most pattern times name.
#![tactic(auto)]

ghost use Rattle.std.specs.Prelude.{◌≡◌, ◌-◌, ◌≤◌, eqb, length, drop};
ghost use Rattle.std.specs.List.{position};
ghost use Rattle.command_spec.specs.Glob.{tokens, matches, some_tail, glob, glob_told};
ghost use Rattle.command_spec.specs.GlobWalk.{Stepped, Walked, LastStar, EndFound, BytePassed, Passed};

use command_spec::pattern::{Compared, Step, Walk};

fn token_at(pattern: &[u8], at: usize) -> Step
    ensures { Stepped pattern.now at result }
{
    if pattern.len() <= at {
        return Step::End;
    }
    let next = at + 1;
    match pattern[at] {
        b'*' => Step::Star(next),
        b'?' => Step::One(next),
        b'\\' if next < pattern.len() => Step::Byte(pattern[next], next + 1),
        byte => Step::Byte(byte, next),
    }
}

// Along the name up to the first star of the pattern.
fn along(pattern: &[u8], name: &[u8]) -> Walk
    ensures { Walked pattern.now name.now result }
{
    let mut at = 0;
    let mut used = 0;
    loop {
        match token_at(pattern, at) {
            Step::End => {
                if used < name.len() {
                    return Walk::Fails;
                }
                return Walk::Whole;
            }
            Step::Star(next) => return Walk::Star(next, used),
            Step::One(next) => {
                if name.len() <= used {
                    return Walk::Fails;
                }
                at = next;
                used += 1;
            }
            Step::Byte(byte, next) => {
                if name.len() <= used || name[used] != byte {
                    return Walk::Fails;
                }
                at = next;
                used += 1;
            }
        }
    }
}

// Where the first such byte stands.
fn first_place(bytes: &[u8], byte: u8) -> Option<usize>
    ensures { result ≡ position (λ b. eqb b byte) bytes.now }
{
    bytes.iter().position(|b| *b == byte)
}

// Passes over the bytes of the name from `from` on that are not this one.
fn place_of(name: &[u8], from: usize, byte: u8) -> usize
    requires { from ≤ length name.now }
    ensures { BytePassed name.now byte from result }
{
    match first_place(&name[from..], byte) {
        Some(i) => from + i,
        None => name.len(),
    }
}

// The next place of the name to try, from `from` on: where the token at `at` is a byte, other bytes are passed over.
fn next_place(pattern: &[u8], at: usize, name: &[u8], from: usize) -> usize
    requires { from ≤ length name.now }
    ensures { Passed (tokens (drop at pattern.now)) name.now from result }
{
    match token_at(pattern, at) {
        Step::Byte(byte, _) => place_of(name, from, byte),
        _ => from,
    }
}

// A pattern with its last star found: the tokens that follow it stand from `behind` on, 0 without a star, and are `count`.
#[derive(Clone, Copy)]
pub struct Pattern<'a> {
    pub bytes: &'a [u8],
    pub behind: usize,
    pub count: usize,
    pub ghost last_star: { LastStar bytes.now behind count },
}

impl<'a> Pattern<'a> {
    // Finds the last star of these bytes.
    pub fn new(bytes: &'a [u8]) -> Pattern<'a>
        ensures { result.bytes.now ≡ bytes.now }
    {
        let mut at = 0;
        let mut behind = 0;
        let mut count = 0;
        loop {
            match token_at(bytes, at) {
                Step::End => {
                    return Pattern {
                        bytes,
                        behind,
                        count,
                    };
                }
                Step::Star(next) => {
                    at = next;
                    behind = next;
                    count = 0;
                }
                Step::One(next) | Step::Byte(_, next) => {
                    at = next;
                    count += 1;
                }
            }
        }
    }

    // Do the tokens behind the last star match the name from `end` on, which has a byte for each? So its steps, unlike those of `along`, test no length.
    fn bytes_match(&self, name: &[u8], end: usize) -> bool
        requires end_in_bounds { end ≤ length name.now }
        requires count_value { self.now.count ≡ length name.now - end }
        ensures { result ≡ matches (tokens (drop self.now.behind self.now.bytes.now)) (drop end name.now) }
    {
        let mut at = self.behind;
        let mut used = end;
        loop {
            match token_at(self.bytes, at) {
                Step::End => return true,
                Step::Star(_) => return false,
                Step::One(next) => {
                    at = next;
                    used += 1;
                }
                Step::Byte(byte, next) => {
                    if name[used] != byte {
                        return false;
                    }
                    at = next;
                    used += 1;
                }
            }
        }
    }

    // Does some end of the name match the tokens behind the last star? Only the one with a byte for each can.
    fn end_matches(&self, name: &[u8]) -> bool
        ensures { result ≡ some_tail (matches (tokens (drop self.now.behind self.now.bytes.now))) name.now }
    {
        self.count <= name.len() && self.bytes_match(name, name.len() - self.count)
    }

    // Does the pattern from `start` on match some tail of the name from `first` on? A later star, once reached, is the one to retry; the
    // last one needs no retry, since the end has matched.
    fn tail_matches(&self, name: &[u8], end: usize, start: usize, first: usize) -> bool
        requires end_found { EndFound self.now.bytes.now name.now self.now.behind end }
        requires start_in_bounds { start ≤ length self.now.bytes.now }
        requires first_in_bounds { first ≤ length name.now }
        ensures { result ≡ some_tail (matches (tokens (drop start self.now.bytes.now))) (drop first name.now) }
    {
        let mut at = start;
        let mut from = first;
        loop {
            match along(&self.bytes[at..], &name[from..]) {
                Walk::Whole => return true,
                Walk::Star(next, used) => {
                    at += next;
                    from += used;
                    if at == self.behind {
                        return from <= end;
                    }
                }
                Walk::Fails => {
                    if name.len() <= from {
                        return false;
                    }
                    from = next_place(self.bytes, at, name, from + 1);
                }
            }
        }
    }

    // Does the pattern match the name, whose end from `end` on matches the tokens behind the last star?
    fn front_matches(&self, name: &[u8], end: usize) -> bool
        requires { EndFound self.now.bytes.now name.now self.now.behind end }
        ensures { result ≡ glob self.now.bytes.now name.now }
    {
        if self.behind == 0 {
            return end == 0;
        }
        match along(self.bytes, name) {
            Walk::Whole => true,
            Walk::Fails => false,
            Walk::Star(next, used) => {
                if next == self.behind {
                    return used <= end;
                }
                self.tail_matches(name, end, next, used)
            }
        }
    }

    // What the pattern answers to the name: the end first.
    pub fn compare(&self, name: &[u8]) -> Compared
        ensures { result ≡ glob_told self.now.bytes.now name.now }
    {
        if self.end_matches(name) {
            if self.front_matches(name, name.len() - self.count) {
                return Compared::Matches;
            }
            return Compared::Differs;
        }
        if 0 < self.behind {
            return Compared::DiffersByTheEnd;
        }
        Compared::Differs
    }

    // The yes or no alone.
    pub fn glob(&self, name: &[u8]) -> bool
        ensures { result ≡ glob self.now.bytes.now name.now }
    {
        self.end_matches(name) && self.front_matches(name, name.len() - self.count)
    }
}

// What a pattern answers to a name.
pub fn compare(pattern: &[u8], name: &[u8]) -> Compared
    ensures { result ≡ glob_told pattern.now name.now }
{
    Pattern::new(pattern).compare(name)
}
