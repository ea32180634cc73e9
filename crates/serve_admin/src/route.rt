//! What the paths of the admin port are.

/// What a request asks the server to do.
#[derive(Clone, Copy, PartialEq, Eq, Debug)]
pub enum AdminAction {
    /// Serve what is open, and report not to be ready.
    Drain,
    /// Open the paths of the logs again.
    Reopen,
}

/// What a path is.
#[derive(Clone, Copy, PartialEq, Eq, Debug)]
pub(crate) enum Route {
    Health,
    Ready,
    Config,
    Metrics,
    Page,
    PageData,
    Act(AdminAction),
}

impl Route {
    /// What a path is, if it is known.
    pub(crate) fn of(path: &str) -> Option<Route> {
        match path {
            "/healthz" => Some(Route::Health),
            "/ready" => Some(Route::Ready),
            "/config" => Some(Route::Config),
            "/metrics" => Some(Route::Metrics),
            "/" => Some(Route::Page),
            "/page.json" => Some(Route::PageData),
            "/drain" => Some(Route::Act(AdminAction::Drain)),
            "/reopen" => Some(Route::Act(AdminAction::Reopen)),
            _ => None,
        }
    }
}
