// A call as a value, as a day sheet and a list of calls hold it, and the reply to one.
use terms::answer::{Answer, Report};
use terms::profile::Profile;
use terms::submission::Submission;

#[derive(Clone, Copy)]
pub enum Call {
    Enrol {
        place: u16,
        profile: Profile,
        dials: u8,
        capacity: u32,
    },
    Submit {
        place: u16,
        read: Submission,
    },
    Withdraw {
        place: u16,
        day: u16,
        value: u32,
    },
    Report {
        place: u16,
    },
    Fold {
        place: u16,
    },
    // No sheet holds one: it is asked between two calls.
    Trial {
        place: u16,
        read: Submission,
    },
}

#[derive(Clone, Copy)]
pub enum Reply {
    Answered(Answer),
    Reported(Report),
}
