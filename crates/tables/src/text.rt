// How a conflict, an answer and a refusal are printed: a word, the values of the case, and of an answer its step count.
ghost use Rattle.std.specs.Prelude.{Some};
ghost use Rattle.tables.specs.Text.{conflict_words, answer_output, refusal_words};

use super::refusal::Refusal;
use super::reply::{Answer, Conflict};
use std::error::Error;
use std::fmt;

impl fmt::Display for Conflict {
    ghost output = { λ c. Some (conflict_words c) };

    fn fmt<W: fmt::Write>(&self, f: &mut fmt::Formatter<W>) -> fmt::Result {
        match self {
            Conflict::Held { object } => write!(f, "held {object}"),
            Conflict::Changed { object } => write!(f, "changed {object}"),
            Conflict::Spent => write!(f, "spent"),
        }
    }
}

impl<K: fmt::Display> fmt::Display for Answer<K> {
    ghost output = { λ a. answer_output K.output a };

    fn fmt<W: fmt::Write>(&self, f: &mut fmt::Formatter<W>) -> fmt::Result {
        match self {
            Answer::Begun { steps } => write!(f, "begun {steps}"),
            Answer::Read { content, steps } => write!(f, "read {content} {steps}"),
            Answer::Written { steps } => write!(f, "written {steps}"),
            Answer::Committed { steps } => write!(f, "committed {steps}"),
            Answer::Aborted { conflict, steps } => write!(f, "aborted {conflict} {steps}"),
            Answer::Withdrawn { steps } => write!(f, "withdrawn {steps}"),
        }
    }
}

impl fmt::Display for Refusal {
    ghost output = { λ q. Some (refusal_words q) };

    fn fmt<W: fmt::Write>(&self, f: &mut fmt::Formatter<W>) -> fmt::Result {
        let question = self.number();
        write!(f, "refused {question}")
    }
}

impl Error for Refusal {}
