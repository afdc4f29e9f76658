//! The terms on which requests are served: what they stand over beside an engine, which has the
//! registry and the rows. What else is asked of each request is added here.

use ob_access::Policy;

/// What a run hands to each request.
#[derive(Clone, Copy)]
pub struct Terms<'a> {
    /// The name of the database, which requests give.
    pub database: &'a str,
    /// Who may ask for what.
    pub policy: &'a Policy,
}
