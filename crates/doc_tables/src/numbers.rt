//! Tables of what has which number. A number that is not in use is free, and is given again.
ghost use Rattle.std.specs.Prelude.{◌≡◌, ◌≢◌, ◌<◌, ◌≤◌, ℕ, min, nat_eq, vec_len, vec_capacity, is_some, if◌then◌else◌, IsSome, None, Some};
ghost use Rattle.doc_tables.specs.Numbered.{at_number};

/// What has a number.
pub(crate) fn thing_at<T>(table: &Vec<Option<T>>, number: u32) -> &T
    requires { IsSome (at_number table.now.items number) }
    ensures { Some result.now ≡ at_number table.now.items number }
{
    table[number as usize].as_ref().unwrap()
}

/// Whether a number is in use.
pub(crate) fn is_used<T>(table: &Vec<Option<T>>, number: u32) -> bool
    ensures { result ≡ is_some (at_number table.now.items number) }
{
    match table.get(number as usize) {
        Some(thing) => thing.is_some(),
        None => false,
    }
}

/// The first free number from one on.
pub(crate) fn first_free<T>(table: &Vec<Option<T>>, from: usize) -> usize
    requires { (n : ℕ) → n < from → IsSome (at_number table.now.items n) }
    ensures used { (n : ℕ) → n < result → IsSome (at_number table.now.items n) }
    ensures free { at_number table.now.items result ≡ None }
{
    let mut number = from;
    while number < table.len() && table[number].is_some() {
        number += 1;
    }
    number
}

/// Gives a thing a number. There is room for it.
pub(crate) fn put<T: Drop>(table: &mut Vec<Option<T>>, number: u32, thing: T)
    requires within { number ≤ vec_len table.old }
    requires room { vec_len table.old < vec_capacity table.old }
    ensures here { at_number table.new.items number ≡ Some thing }
    ensures others { (n : ℕ) → n ≢ number → at_number table.new.items n ≡ at_number table.old.items n }
    ensures few { (k : ℕ) → vec_len table.old ≤ k → number < k → vec_len table.new ≤ k }
{
    let place = number as usize;
    if place < table.len() {
        table[place] = Some(thing);
    } else {
        table.push(Some(thing)).unwrap();
    }
}

/// Frees a number.
pub(crate) fn release<T: Drop>(table: &mut Vec<Option<T>>, number: u32)
    ensures freed { (n : ℕ) → at_number table.new.items n ≡ (if nat_eq n number then None else at_number table.old.items n) }
    ensures len { vec_len table.new ≡ vec_len table.old }
{
    let place = number as usize;
    if place < table.len() {
        table[place] = None;
    }
}

/// The lower of a number below which none is free and one that was freed.
pub(crate) fn lower(free: usize, freed: u32) -> usize
    ensures { result ≡ min free freed }
{
    if (freed as usize) < free {
        freed as usize
    } else {
        free
    }
}
