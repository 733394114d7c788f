// What a program in C is told of a search: numbers alone.
ghost use Rattle.std.specs.Prelude.{◌≡◌};
ghost use Rattle.meter.specs.Search.{as_searched};
ghost use Rattle.necktureen.specs.Search.{fields_of};

use reads::search::Search;
use terms::answer::Answer;
use terms::refusal::Refusal;

#[derive(Clone, Copy)]
pub struct SearchFields {
    pub number: u8,
    // 1 if a read is found, else 0.
    pub found: u8,
    pub value: u32,
    pub letter: u8,
    pub indicator: u8,
    pub flag: u8,
    pub compared: u8,
}

impl SearchFields {
    // Nothing is found, and no day was compared.
    const NOTHING: SearchFields = SearchFields {
        number: Answer::ACCEPTED,
        found: 0,
        value: 0,
        letter: 0,
        indicator: 0,
        flag: 0,
        compared: 0,
    };
}

impl From<Result<Search, Refusal>> for SearchFields {
    ghost from_gives = { λ answer fields. fields ≡ fields_of (as_searched answer) };

    // Zeros for the read where none is found.
    #[tactic(auto, unfolding(crate::specs::Search::fields_with))]
    fn from(answer: Result<Search, Refusal>) -> SearchFields {
        match answer {
            Ok(search) => match search.found {
                Some(e) => SearchFields {
                    number: Answer::ACCEPTED,
                    found: 1,
                    value: e.value,
                    letter: e.letter,
                    indicator: e.indicator,
                    flag: e.flag,
                    compared: search.compared,
                },
                None => SearchFields {
                    compared: search.compared,
                    ..SearchFields::NOTHING
                },
            },
            Err(refusal) => SearchFields {
                number: refusal.into(),
                ..SearchFields::NOTHING
            },
        }
    }
}
