//! Where a list is wrong. A place has the numbers of the items from the whole domain on: of a
//! criterion in its list, and 2, its operand, where an inner domain stands.

ghost use Rattle.std.specs.Prelude.{◌≡◌, ◌++◌, ◌∷◌, [], IfOk, IsErrAnd, MatchResult, Ok};
ghost use Rattle.ob_domain.specs.Places.{IsFault, fault_at, place_of};

use crate::fault::{DomainFault, Unfit};
use ob_base::{NoMemory, PathStep, Place};
use std::alloc::Global;

/// The fault of a domain whose list is wrong, at the item of these numbers.
pub(crate) fn shape(alloc: Global, numbers: &[usize]) -> DomainFault
    ensures { IsFault result (DomainFault.Shape (place_of numbers.now)) }
{
    match place_of(alloc, numbers) {
        Ok(place) => DomainFault::Shape(place),
        Err(error) => DomainFault::from(error),
    }
}

/// The fault of a criterion that is wrong, at the item of these numbers.
pub(crate) fn fault_at(alloc: Global, unfit: Unfit, numbers: &[usize]) -> DomainFault
    ensures { IsFault result (fault_at unfit numbers.now) }
{
    let place = match place_of(alloc, numbers) {
        Ok(place) => place,
        Err(error) => return DomainFault::from(error),
    };
    match unfit {
        Unfit::Field => DomainFault::Field(place),
        Unfit::Operator => DomainFault::Operator(place),
        Unfit::Operand => DomainFault::Operand(place),
        Unfit::NotStored => DomainFault::NotStored(place),
        Unfit::NoTree => DomainFault::NoTree(place),
        Unfit::NoMemory => DomainFault::NoMemory,
    }
}

/// What is given, or the fault of a criterion at the item of these numbers.
pub(crate) fn told_at<T>(
    alloc: Global,
    numbers: &[usize],
    given: Result<T, Unfit>,
) -> Result<T, DomainFault>
    ensures { MatchResult given (λ x. result ≡ Ok x)
        (λ why. IsErrAnd result (λ fault. IsFault fault (fault_at why numbers.now))) }
{
    match given {
        Ok(x) => Ok(x),
        Err(unfit) => Err(fault_at(alloc, unfit, numbers)),
    }
}

/// The numbers of an item of the one with these numbers.
pub(crate) fn inner_of(
    alloc: Global,
    numbers: &[usize],
    number: usize,
) -> Result<Vec<usize>, NoMemory>
    ensures { IfOk result (λ inner. inner.items ≡ numbers.now ++ number ∷ []) }
{
    let mut inner = numbers.to_vec(alloc)?;
    inner.push(number)?;
    Ok(inner)
}

/// The place of the item of these numbers, each in the one before it.
fn place_of(alloc: Global, numbers: &[usize]) -> Result<Place, NoMemory>
    ensures { IfOk result (λ place. place ≡ place_of numbers.now) }
{
    let mut place = Place::whole(alloc);
    for number in numbers {
        place.push(PathStep::Item(*number as u64))?;
    }
    Ok(place)
}
