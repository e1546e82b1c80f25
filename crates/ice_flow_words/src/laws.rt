//! What the definitions come to, each as the contract of a function that does nothing.
ghost use Rattle.std.specs.Prelude.{◌≡◌, is_some, map, string_bytes};
ghost use Rattle.ice_flow_words.specs.Reading.{is_taken, request_of};
ghost use Rattle.ice_flow_words.specs.Examples.{HasWorkedExamples};

/// Words ask for a request exactly where the command takes them. They ask for one at most, since what they ask for is a function
/// of them.
pub fn asks_where_taken(words: &[String])
    ensures { is_some (request_of (map string_bytes words.now))
        ≡ is_taken (map string_bytes words.now) }
{}

/// What some words ask for, and some that are refused.
pub fn worked_examples()
    ensures { HasWorkedExamples }
{}
