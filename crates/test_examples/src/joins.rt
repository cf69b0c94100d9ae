//! Users of joins: that memory is enough for what they find.
ghost use Rattle.std.specs.Prelude.{◌≡◌, IfOk, string_bytes};

use example_joins::kinds::{absent, common_groups, present};
use example_joins::names::{Person, Visit, count_visits};
use example_joins::sets::{difference, intersection, union, union_of_three};
use example_joins::visits::visits_of_each;
use std::alloc::{AllocError, Global};
use std::test::Fail;

fn person(alloc: Global, name: &str) -> Result<Person, AllocError>
    ensures { IfOk result (λ p. string_bytes p.name ≡ name.now) }
{
    Ok(Person {
        name: String::from_str(alloc, name)?,
        born: 1970,
    })
}

fn visit(alloc: Global, name: &str) -> Result<Visit, AllocError>
    ensures { IfOk result (λ v. string_bytes v.name ≡ name.now) }
{
    Ok(Visit {
        name: String::from_str(alloc, name)?,
        day: 1,
    })
}

// Two visits of one person, and none of another.
fn visits_are_found(alloc: Global) -> Result<bool, AllocError> {
    let people = [person(alloc, "Ann")?, person(alloc, "Bo")?];
    let visits = [visit(alloc, "Ann")?, visit(alloc, "Ann")?];
    let counted = count_visits(alloc, &people, &visits)?;
    let joined = visits_of_each(alloc, &people, &visits)?;
    let counts = counted.iter().map(|entry| entry.1);
    let lens = joined.iter().map(|entry| entry.1.len());
    Ok(counts.eq([2, 0]) && lens.eq([2, 0]))
}

#[test]
fn of_names(rt: HostRuntime) {
    assert!(rt; visits_are_found(rt.alloc()) == Ok(true));
}

#[test]
fn of_numbers(rt: HostRuntime) -> Result<(), Fail> {
    let alloc = rt.alloc();
    let (left, right) = ([1, 1, 2, 4, 5], [2, 3, 5, 5]);
    assert!(rt; absent(alloc, &left, &right)?.as_slice() == [&1, &1, &4].as_slice());
    assert!(rt; present(alloc, &left, &right)?.as_slice() == [&2, &5].as_slice());
    let groups: [(&[u32], &[u32]); 2] = [(&[2], &[2]), (&[5], &[5, 5])];
    assert!(rt; common_groups(alloc, &left, &right)?.as_slice() == groups.as_slice());
    Ok(())
}

#[test]
fn of_sets(rt: HostRuntime) -> Result<(), Fail> {
    let alloc = rt.alloc();
    let (left, right) = ([1, 2, 4], [2, 3]);
    assert!(rt; matches!(union(alloc, &left, &right)?.as_slice(), [1, 2, 3, 4]));
    assert!(rt; matches!(intersection(alloc, &left, &right)?.as_slice(), [2]));
    assert!(rt; matches!(difference(alloc, &left, &right)?.as_slice(), [1, 4]));
    let three = union_of_three(alloc, &left, &right, &[0, 9])?;
    assert!(rt; matches!(three.as_slice(), [0, 1, 2, 3, 4, 9]));
    Ok(())
}
