//! An answer in short.
use jobs::call::Reply;
use refusals::refusal::Refusal;
use std::fmt;
use strategies::choice::Choice;
use strategies::declined::Declined;

/// What kind of answer it is. A choice is told by its kind, and by how many tables it names.
#[derive(Clone, Copy)]
pub enum Answer {
    /// Whether book and sheet are sound.
    Tested(bool),
    /// A call that hands nothing out was granted.
    Granted,
    Chosen(Choice),
    Booked(Choice),
    Refused(Refusal),
}

impl From<Reply> for Answer {
    fn from(reply: Reply) -> Answer {
        match reply {
            Reply::Ended(Ok(())) => Answer::Granted,
            Reply::Chosen(Ok(choice)) => Answer::Chosen(choice),
            Reply::Booked(Ok(booked)) => Answer::Booked(booked.choice),
            Reply::Ended(Err(refusal))
            | Reply::Chosen(Err(refusal))
            | Reply::Booked(Err(refusal)) => Answer::Refused(refusal),
        }
    }
}

impl From<Result<Choice, Declined>> for Answer {
    fn from(chosen: Result<Choice, Declined>) -> Answer {
        match chosen {
            Ok(choice) => Answer::Chosen(choice),
            Err(declined) => Answer::Refused(Refusal::from(declined)),
        }
    }
}

// The kind of a choice, and how many tables it names.
#[derive(Drop)]
struct Kind<'a>(&'a Choice);

impl fmt::Display for Kind<'_> {
    fn fmt<W: fmt::Write>(&self, f: &mut fmt::Formatter<W>) -> fmt::Result {
        let count = self.0.count();
        match self.0 {
            Choice::DoNothing => f.write_str("nothing"),
            Choice::Move(_) => write!(f, "move of {count}"),
            Choice::Merge(_) => write!(f, "merge of {count}"),
            Choice::Drop(_) => write!(f, "drop of {count}"),
        }
    }
}

impl fmt::Display for Answer {
    fn fmt<W: fmt::Write>(&self, f: &mut fmt::Formatter<W>) -> fmt::Result {
        match self {
            Answer::Tested(true) => f.write_str("sound"),
            Answer::Tested(false) => f.write_str("not sound"),
            Answer::Granted => f.write_str("granted"),
            Answer::Chosen(choice) => write!(f, "{}", Kind(choice)),
            Answer::Booked(choice) => write!(f, "booked {}", Kind(choice)),
            Answer::Refused(refusal) => write!(f, "refused {}", refusal.number()),
        }
    }
}
