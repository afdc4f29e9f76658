//! Which services and methods there are, and how many elements each method takes.

ghost use Rattle.std.specs.Prelude.{◌≡◌, option_map, IfNone};
ghost use Rattle.ob_rpc.specs.Envelope as spec;
ghost use Rattle.ob_rpc.specs.Envelope.{FitsArity};
ghost use Rattle.ob_rpc.specs.Seen.{seen_arity};

/// Which methods a program serves.
#[derive(Clone, Copy, Debug, PartialEq, Eq)]
pub enum Served {
    /// `execute_kw` of `object` alone.
    ExecuteKw,
    /// `version`, `login` and `authenticate` of `common`, `execute` and `execute_kw` of `object`.
    EveryMethod,
}

/// How many elements the arguments of a method have: from, and to where there is a limit.
#[derive(Clone, Copy, Debug, PartialEq, Eq)]
pub(crate) struct Arity {
    pub(crate) least: usize,
    pub(crate) most: Option<usize>,
}

/// Whether a service of this name is served.
pub(crate) fn is_service(served: Served, service: &str) -> bool
    ensures { result ≡ spec.is_service served service.now }
{
    match served {
        Served::ExecuteKw => "object" == service,
        Served::EveryMethod => "common" == service || "object" == service,
    }
}

/// How many elements a method of a service takes, where it is served.
pub(crate) fn arity_of(served: Served, service: &str, method: &str) -> Option<Arity>
    ensures { option_map seen_arity result ≡ spec.arity_of served service.now method.now }
{
    match (served, service) {
        (Served::ExecuteKw, "object") => execute_kw_arity(method),
        (Served::EveryMethod, "object") => object_arity(method),
        (Served::EveryMethod, "common") => common_arity(method),
        _ => None,
    }
}

fn common_arity(method: &str) -> Option<Arity>
    ensures { option_map seen_arity result ≡ spec.common_arity method.now }
{
    match method {
        "version" => Some(exactly(0)),
        "login" => Some(exactly(3)),
        "authenticate" => Some(exactly(4)),
        _ => None,
    }
}

fn object_arity(method: &str) -> Option<Arity>
    ensures { option_map seen_arity result ≡ spec.object_arity method.now }
{
    match method {
        "execute" => Some(Arity {
            least: 5,
            most: None,
        }),
        _ => execute_kw_arity(method),
    }
}

fn execute_kw_arity(method: &str) -> Option<Arity>
    ensures { option_map seen_arity result ≡ spec.execute_kw_arity method.now }
{
    match method {
        "execute_kw" => Some(Arity {
            least: 6,
            most: Some(7),
        }),
        _ => None,
    }
}

/// This number of elements and no other.
fn exactly(count: usize) -> Arity
    ensures { seen_arity result ≡ spec.exactly count }
{
    Arity {
        least: count,
        most: Some(count),
    }
}

/// The number of the first element that is missing, or that is one too many.
pub(crate) fn wrong_element(arity: Arity, count: usize) -> Option<usize>
    ensures wrong { result ≡ spec.wrong_element (seen_arity arity) count }
    ensures none { IfNone result (FitsArity count (seen_arity arity)) }
{
    if count < arity.least {
        return Some(count);
    }
    match arity.most {
        Some(most) if most < count => Some(most),
        _ => None,
    }
}
