// The replies of a step.
ghost use Rattle.std.specs.Prelude.{◌≡◌};
ghost use Rattle.engine.specs.Outcome.{going, answering};

use tables::{Answer, Effect, Kind, Stepped};

// The reply of a step after which the request goes on.
pub(crate) fn going<K: Kind>(effect: Effect) -> Stepped<K>
    ensures { result ≡ going effect }
{
    Stepped {
        effect,
        answer: None,
    }
}

// The reply of a step that completes the request.
pub(crate) fn answering<K: Kind>(effect: Effect, answer: Answer<K>) -> Stepped<K>
    ensures { result ≡ answering effect answer }
{
    Stepped {
        effect,
        answer: Some(answer),
    }
}
