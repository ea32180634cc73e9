//! What may be ready, and the numbers under which the system reports it.

ghost use Rattle.std.specs.Prelude.{◌≡◌, ◌↔◌, Some, IfSome, IsSome};
ghost use Rattle.serve_net.specs.Tokens.{token_of, HasToken};

/// What may be done after a wait.
#[derive(Clone, Copy, PartialEq, Eq, Debug)]
pub enum Ready {
    /// Connections may wait to be accepted.
    Listener,
    /// The connection in this place may be read or written.
    Place(usize),
    /// The update stream may be read or written.
    Control,
    /// Standard input ended: the server is to end.
    Drain,
    /// Connections may wait at the admin port.
    AdminListener,
    /// The connection in this place of the admin port may be read or written.
    Admin(usize),
}

// The first number of a connection of the admin port.
const ADMIN: usize = 1 << 62;
// The number of the listeners. Those of the admin port, the update stream and standard input follow it.
const LISTENERS: usize = 1 << 63;

/// The number of what may be ready; none for a place that has no number.
pub(crate) fn token(ready: Ready) -> Option<usize>
    ensures some { IfSome result (λ n. n ≡ token_of ready) }
    ensures none { IsSome result ↔ HasToken ready }
{
    match ready {
        Ready::Listener => Some(LISTENERS),
        Ready::AdminListener => Some(LISTENERS + 1),
        Ready::Control => Some(LISTENERS + 2),
        Ready::Drain => Some(LISTENERS + 3),
        Ready::Place(k) if k < ADMIN => Some(k),
        Ready::Admin(k) if k < ADMIN => Some(ADMIN + k),
        Ready::Place(_) | Ready::Admin(_) => None,
    }
}

/// What has this number, if something has it.
pub(crate) fn meaning(token: usize) -> Option<Ready>
    ensures some { IfSome result (λ it. HasToken it × (token_of it ≡ token)) }
    ensures found { (it : Ready) → HasToken it → token_of it ≡ token → result ≡ Some it }
{
    match token {
        k if k < ADMIN => Some(Ready::Place(k)),
        n if n < LISTENERS => Some(Ready::Admin(n - ADMIN)),
        n => match n - LISTENERS {
            0 => Some(Ready::Listener),
            1 => Some(Ready::AdminListener),
            2 => Some(Ready::Control),
            3 => Some(Ready::Drain),
            _ => None,
        },
    }
}
