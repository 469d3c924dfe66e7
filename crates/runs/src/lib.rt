// What a RUN asks of what runs its command, what that answers, and the rule for the mounts of one RUN.
//
// These are plain data, so that a graph of builds can speak of a request without an executor: whoever runs a command is handed a
// `RunRequest` and answers a `RunOutcome`. The central definition is `fits_request` (specs/Run.antt): whether the mounts of a
// request may stand together.
//
// ```
// let request = RunRequest { root, binds, caches, env, dir, user, words };
// ```
#![tactic(auto)]

pub mod laws;
mod run;

pub use run::{CacheUse, RunBind, RunOutcome, RunRequest};
