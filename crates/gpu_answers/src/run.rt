//! A run of calls with the answers given for it.

ghost use Rattle.std.specs.Prelude.{◌≡◌, ◌↔◌, [], Some, IsTrue, OnOk, OnErr};
ghost use Rattle.gpu_answers.specs.Asking.{begun, map_question, open_in, AsksInRun};
ghost use Rattle.gpu_answers.specs.declared.run.Stop.TheVariants.{Strayed};

use crate::{Answer, Answered, Question};
use std::alloc::{AllocError, Global};
use std::marker::Model;

/// Why a run has no more answers.
#[derive(Clone, Copy, Debug, PartialEq, Eq)]
pub(crate) enum Stop {
    /// This question was asked after the last answer.
    Open(Question),

    /// A question was asked that isn't the one of the answer in its place.
    Strayed,
}

/// A run of calls: the given answers, how many of them are used, why no more are, and what was made last.
#[derive(Drop)]
pub(crate) struct Run {
    answers: Vec<Answered>,
    used: usize,
    stop: Option<Stop>,
    made: Option<u64>,
}

impl Model for Run {
    ghost use Rattle.std.specs.Prelude.{drop};
    ghost use Rattle.gpu_answers.specs.Asking.{RunState};

    ghost Value = { RunState };

    ghost view = { λ run. record {
      left = drop run.used run.answers.items;
      stop = run.stop;
      made = run.made;
    } };
}

impl Run {
    /// A run without answers. It allocates nothing.
    pub(crate) fn new(alloc: Global) -> Run
        ensures { result ≡ begun [] }
    {
        Run {
            answers: Vec::new(alloc),
            used: 0,
            stop: None,
            made: None,
        }
    }

    /// Begins anew with these answers. It fails only for want of memory, and then nothing changes.
    pub(crate) fn begin(&mut self, answers: &[Answered]) -> Result<(), AllocError>
        ensures ok { OnOk result (self.new ≡ begun answers.now) }
        ensures err { OnErr result (self.new ≡ self.old) }
    {
        if answers.is_empty() {
            self.answers.clear();
        } else {
            self.answers.reserve(answers.len())?;
            self.answers.clear();
            self.answers.extend_from_slice(answers).unwrap();
        }
        self.used = 0;
        self.stop = None;
        self.made = None;
        Ok(())
    }

    /// The next answer, if it is one to this question.
    pub(crate) fn ask(&mut self, question: Question) -> Option<Answer>
        ensures { AsksInRun self.old question result self.new }
    {
        if self.stop.is_some() {
            return None;
        }
        match self.answers.get(self.used) {
            Some(next) if next.question == question => {
                let answer = next.answer;
                self.used += 1;
                Some(answer)
            }
            Some(_) => {
                self.stop = Some(Stop::Strayed);
                None
            }
            None => {
                self.stop = Some(Stop::Open(question));
                None
            }
        }
    }

    /// The next answer, if it is one to the question to map that range of the object of that name.
    pub(crate) fn ask_to_map(&mut self, object: u64, offset: u64, size: u64) -> Option<Answer>
        ensures { AsksInRun self.old (map_question self.old.made object offset size) result self.new }
    {
        let question = match self.made {
            Some(made) if made == object => Question::MapMade { offset, size },
            _ => Question::Map {
                object,
                offset,
                size,
            },
        };
        self.ask(question)
    }

    /// Notes the object that was made.
    pub(crate) fn note_made(&mut self, name: u64)
        ensures { self.new ≡ record self.old { made = Some name } }
    {
        self.made = Some(name);
    }

    /// The question that has no answer yet.
    pub(crate) fn open(&self) -> Option<Question>
        ensures { result ≡ open_in self.now.stop }
    {
        match self.stop {
            Some(Stop::Open(question)) => Some(question),
            _ => None,
        }
    }

    /// Whether a question was asked that isn't the one of the answer in its place.
    pub(crate) fn has_strayed(&self) -> bool
        ensures { IsTrue result ↔ (self.now.stop ≡ Some Strayed) }
    {
        matches!(self.stop, Some(Stop::Strayed))
    }

    /// The name of the object that was made last.
    pub(crate) fn made(&self) -> Option<u64>
        ensures { result ≡ self.now.made }
    {
        self.made
    }
}
