// One step of a run: `resume` where there is an execution slot, which acts, else `take`, which takes the next token of the script. The answer is the definition's
// step, errors and their order, the count of steps and the offsets included. An error is handed over by the caller, out of the loop of steps: here the words
// stand for what they stood for.
#![tactic(auto)]

ghost use Rattle.std.specs.Prelude.{◌≡◌, ◌<◌, ◌≤◌, length};
ghost use Rattle.semantics.specs.Sizes.{fuel_most};
ghost use Rattle.step.specs.Stepping.{ReadySlot, ReadyToken, TriesSlot, TriesToken, Finished, ended_by, grouped_by, misread_by};

use ending::Command;
use group_taking::GroupError;
use machine::Machine;
use semantics::{Error, Fault};
use token::Token;

// The state between two steps: the machine, the offset of the script's bytes that are left, the offset of the token last taken, and the steps made.
#[derive(Clone, Copy)]
pub struct State {
    pub machine: Machine,
    pub next: usize,
    pub at: usize,
    pub steps: u32,
}

// A step that could not read its token has the empty command, so that its fault lies where nothing of the other answers does. It is no
// `Result<State, Stop>`: on the tree before the design pass that form, with two changes that alone cost nothing, took a step of the counted loop from 79.47 machine
// instructions to 119.56 (docs/DESIGN-PASS.md).
#[derive(Clone, Copy)]
pub enum Stepped {
    Goes(State),
    Fails(State, Error, Command),
    Misreads(State, Command, Fault),
}

impl State {
    // The topmost execution slot acts.
    // Ruled out: a failing step that is not counted; the offset moved.
    // The loop of steps calls it at each step.
    #[inline(always)]
    pub fn resume(
        self,
        stack: &mut [u32],
        exec: &mut [u32],
        dict: &mut [u32],
        cells: &mut [u32],
        log: &mut [u8],
    ) -> Stepped
        requires { (1 ≤ self.machine.frames) × ReadySlot self stack.old exec.old dict.old cells.old log.old }
        ensures { TriesSlot self stack.old stack.new exec.old exec.new dict.old dict.new cells.old cells.new log.old log.new result }
    {
        let m = self.machine;
        match acting::act(m, stack, exec, dict, cells, log) {
            Ok(r) => self.ended(self.at, self.next, Command::Nothing, Ok(r)),
            // no word has changed: the command is where it was
            Err(e) => {
                let failed = commands::command(m, exec, cells);
                self.ended(self.at, self.next, failed, Err(e))
            }
        }
    }

    // With no execution slot the next token is taken.
    // Ruled out: a token that is taken twice; a token that failed taken for one that is still to be met.
    pub fn take(
        self,
        script: &[u8],
        stack: &mut [u32],
        exec: &mut [u32],
        dict: &mut [u32],
        cells: &mut [u32],
    ) -> Stepped
        requires { ReadyToken script.now self stack.old exec.old dict.old cells.old }
        ensures { TriesToken script.now self stack.old stack.new exec.old exec.new dict.old dict.new cells.old cells.new result }
    {
        let start = token::skip(script, self.next);
        let m = self.machine;
        match token::token_at(script, start) {
            Ok((read, next)) => match read {
                Token::Integer(w) => self.ended(
                    start,
                    next,
                    Command::Taken(next),
                    taking::take_integer(m, stack, w),
                ),
                Token::String(at, size) => {
                    let did = taking::take_string(m, stack, cells, script, at, size);
                    self.ended(start, next, Command::Taken(next), did)
                }
                Token::ExecutableName(at, size) => {
                    let did = taking::take_executable(m, exec, dict, cells, &script[at..at + size]);
                    self.ended(start, next, Command::Token(at, size), did)
                }
                Token::LiteralName(at, size) => {
                    let did = taking::take_literal(m, stack, dict, &script[at..at + size]);
                    self.ended(start, next, Command::Taken(next), did)
                }
                Token::OpenBrace => {
                    let grouped = group_taking::take_group(m, stack, dict, cells, script, next);
                    self.grouped(start, &grouped)
                }
                Token::CloseBrace => self.misread(start, Fault::BadBrace(start as u32)),
                Token::End => self.misread(start, Fault::BadBrace(start as u32)),
            },
            Err(f) => self.misread(start, f),
        }
    }

    // Whether only space and comment are left, and no execution slot.
    // Ruled out: a run that is finished while a slot waits; a last comment taken for a token.
    pub fn is_finished(self, script: &[u8]) -> bool
        requires { self.next ≤ length script.now }
        ensures { Finished script.now self result }
    {
        let m = self.machine;
        if m.frames == 0 {
            return token::skip(script, self.next) == script.len();
        }
        false
    }

    // A finished run is at the script's end.
    // Ruled out: an `at` that stays at the last token; a step counted for the end.
    pub fn finish(self, at: usize) -> State
        ensures { result ≡ record { machine = self.machine; next = self.next; at = at; steps = self.steps } }
    {
        State { at, ..self }
    }

    // The same state, made anew field by field: the compiler then keeps the fields of the loop's state apart.
    // Ruled out: two fields exchanged; a step counted.
    pub fn by_fields(self) -> State
        ensures { result ≡ self }
    {
        State {
            machine: self.machine.fields(),
            next: self.next,
            at: self.at,
            steps: self.steps,
        }
    }

    // The state after a step: the token at `at` has been taken, and the bytes from `next` on are left; or the state before it, with the step counted and `at` set.
    fn ended(self, at: usize, next: usize, command: Command, did: Result<Machine, Error>) -> Stepped
        requires { self.steps < fuel_most }
        ensures { result ≡ ended_by self at next command did }
    {
        match did {
            Ok(machine) => Stepped::Goes(State {
                machine,
                next,
                at,
                steps: self.steps + 1,
            }),
            Err(e) => Stepped::Fails(
                State {
                    at,
                    steps: self.steps + 1,
                    ..self
                },
                e,
                command,
            ),
        }
    }

    // The same of a brace group. The answer is read where the call has left it: in a copy an error would lie, in memory, on words of the machine, and the compiler
    // would carry these words in pieces through the loop of steps.
    fn grouped(self, at: usize, answer: &Result<(Machine, usize), GroupError>) -> Stepped
        requires { self.steps < fuel_most }
        ensures { result ≡ grouped_by self at answer.now }
    {
        match answer {
            Ok((r, next)) => self.ended(at, *next, Command::Nothing, Ok(*r)),
            Err(GroupError::Failed(e, next)) => self.ended(
                at,
                *next,
                Command::Taken(*next),
                Err(*e),
            ),
            Err(GroupError::Misread(f)) => self.misread(at, *f),
        }
    }

    // The token at `at` could not be read.
    fn misread(self, at: usize, f: Fault) -> Stepped
        requires { self.steps < fuel_most }
        ensures { result ≡ misread_by self at f }
    {
        Stepped::Misreads(
            State {
                at,
                steps: self.steps + 1,
                ..self
            },
            Command::Nothing,
            f,
        )
    }
}
