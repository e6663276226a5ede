//! What is whole, row by row, and told anew of one job.

ghost use Rattle.std.specs.Prelude.{◌≡◌, map, option_map, slice_set, true, IfOk, if◌then◌else◌};
ghost use Rattle.smk_world.specs.Trees.{Each};
ghost use Rattle.smk_plan_facts.specs.Telling.{directories_of, flag_in, flags_at, flags_but, flags_each, is_made_in, is_made_of, is_number, is_told_whole, makers_in, outputs_in, put_some, AreNumbersOf, IsSorted};

use crate::directories::{Directory, directories_in, whole_in};
use crate::rising::{are_all_sorted, are_sorted};
use crate::whole::is_made;
use smk_base::{List, OutOfMemory};
use smk_chain::{Jobs, Maker};
use smk_flow::Job;
use smk_plan::Told;
use std::alloc::Global;

/// Which outputs of the job are whole, by what is known and was seen. `OutOfMemory` where there is no memory for the answer. Its time is that of a few questions
/// for each output, and of the members of its directories.
pub fn outputs_told<T: Told>(alloc: Global, told: &T, job: &Job) -> Result<List<bool>, OutOfMemory>
    ensures { IfOk result (λ flags. flags ≡ outputs_in (T.known told.now) (T.seen told.now) job.now) }
{
    whole_in(alloc, told, job.recipe.outputs.as_slice())
}

/// The same of each job.
pub fn all_outputs_told<T: Told>(
    alloc: Global,
    told: &T,
    jobs: &[Job],
) -> Result<Vec<List<bool>>, OutOfMemory>
    ensures { IfOk result (λ flags. flags.items ≡ map (outputs_in (T.known told.now) (T.seen told.now)) jobs.now) }
{
    let mut flags = Vec::new(alloc);
    for job in jobs {
        flags.push(outputs_told(alloc, told, job)?)?;
    }
    Ok(flags)
}

// The directories of each job.
fn all_directories<T: Told>(
    alloc: Global,
    told: &T,
    jobs: &[Job],
) -> Result<List<List<Directory>>, OutOfMemory>
    ensures { IfOk result (λ found. found ≡ map (directories_of (T.known told.now) (T.seen told.now)) jobs.now) }
{
    let mut found = List::new(alloc);
    for job in jobs {
        found.push(directories_in(alloc, told, job.recipe.outputs.as_slice())?)?;
    }
    Ok(found)
}

// Whether what the maker tells of is whole, where these are the directories of the jobs. Where they are sorted, the members of each that is whole rise by name.
fn is_told_whole<T: Told>(
    told: &T,
    directories: &[List<Directory>],
    maker: &Maker,
    sorted: bool,
) -> bool
    ensures { (sorted ≡ true → Each (Each (IsSorted (T.seen told.now))) directories.now) → result ≡ is_told_whole (T.seen told.now) directories.now maker.now }
{
    match maker.job {
        None => false,
        Some(number) => match directories.get(number as usize) {
            None => false,
            Some(own) => is_made(told, own.as_slice(), &maker.path, sorted),
        },
    }
}

// Which of the paths that are told of are whole.
fn makers_whole<T: Told>(
    alloc: Global,
    told: &T,
    directories: &[List<Directory>],
    makers: &[Maker],
    sorted: bool,
) -> Result<List<bool>, OutOfMemory>
    ensures { IfOk result (λ flags. (sorted ≡ true → Each (Each (IsSorted (T.seen told.now))) directories.now) → flags ≡ map (is_told_whole (T.seen told.now) directories.now) makers.now) }
{
    let mut flags = List::new(alloc);
    for maker in makers {
        flags.push(is_told_whole(told, directories, maker, sorted))?;
    }
    Ok(flags)
}

/// Which of the paths that the makers tell of are whole, by what is known and was seen. `OutOfMemory` where there is no memory for the answer.
///
/// The time is near linear in the makers, the outputs and the members of directories, where the members of each directory were seen in rising order; else they are
/// gone over for each path under it.
pub fn makers_told<T: Told>(alloc: Global, told: &T, jobs: &Jobs) -> Result<List<bool>, OutOfMemory>
    ensures { IfOk result (λ flags. flags ≡ makers_in (T.known told.now) (T.seen told.now) jobs.now) }
{
    let directories = all_directories(alloc, told, jobs.jobs.as_slice())?;
    let sorted = are_all_sorted(told, directories.as_slice());
    let flags = makers_whole(
        alloc,
        told,
        directories.as_slice(),
        jobs.makers.as_slice(),
        sorted,
    )?;
    Ok(flags)
}

// Whether the maker names the job of this number.
fn names(maker: &Maker, number: usize) -> bool
    ensures { result ≡ is_number number maker.now.job }
{
    match maker.job {
        None => false,
        Some(own) => own as usize == number,
    }
}

// The flag of the maker: told by the directories of the job, where it names the job of the number, and else the one that was there.
fn flag_again<T: Told>(
    told: &T,
    number: usize,
    directories: &[Directory],
    sorted: bool,
    maker: &Maker,
    flag: bool,
) -> bool
    ensures { (sorted ≡ true → Each (IsSorted (T.seen told.now)) directories.now)
        → result ≡ (if is_number number maker.now.job then is_made_in (T.seen told.now) maker.now.path directories.now else flag) }
{
    if !names(maker, number) {
        return flag;
    }
    is_made(told, directories, &maker.path, sorted)
}

// The flag in a place, told so, where there are a maker and a flag.
fn flag_in<T: Told>(
    told: &T,
    number: usize,
    directories: &[Directory],
    sorted: bool,
    maker: Option<&Maker>,
    flag: Option<&bool>,
) -> Option<bool>
    requires { sorted ≡ true → Each (IsSorted (T.seen told.now)) directories.now }
    ensures { result ≡ flag_in (λ m. is_made_in (T.seen told.now) m.path directories.now) number (option_map (λ m. m.now) maker.entry) (option_map (λ b. b.now) flag.entry) }
{
    match maker {
        None => None,
        Some(maker) => match flag {
            None => None,
            Some(flag) => Some(flag_again(told, number, directories, sorted, maker, *flag)),
        },
    }
}

// Puts the flag in the place, where there is one.
#[tactic(auto, using(crate::proofs::Again::set_beyond))]
fn put(flags: &mut Vec<bool>, at: usize, flag: bool)
    ensures { flags.new.items ≡ slice_set flags.old.items at flag }
{
    if at < flags.len() {
        flags[at] = flag;
    }
}

// The same of a flag, if there is any.
fn put_some(flags: &mut Vec<bool>, at: usize, flag: Option<bool>)
    ensures { flags.new.items ≡ put_some flags.old.items at flag }
{
    match flag {
        None => {}
        Some(flag) => put(flags, at, flag),
    }
}

// Tells the flag in the place anew, where these are the directories of the job of the number.
fn tell_at<T: Told>(
    told: &T,
    number: usize,
    directories: &[Directory],
    sorted: bool,
    makers: &[Maker],
    flags: &mut Vec<bool>,
    at: usize,
)
    requires { sorted ≡ true → Each (IsSorted (T.seen told.now)) directories.now }
    ensures { flags.new.items ≡ flags_at (λ m. is_made_in (T.seen told.now) m.path directories.now) number makers.now flags.old.items at }
{
    let maker = makers.get(at);
    let flag = flag_in(told, number, directories, sorted, maker, flags.get(at));
    put_some(flags, at, flag);
}

// The same in each of the places.
fn tell_each<T: Told>(
    told: &T,
    number: usize,
    directories: &[Directory],
    sorted: bool,
    makers: &[Maker],
    numbers: &[usize],
    flags: &mut Vec<bool>,
)
    requires { sorted ≡ true → Each (IsSorted (T.seen told.now)) directories.now }
    ensures { flags.new.items ≡ flags_each (λ m. is_made_in (T.seen told.now) m.path directories.now) number makers.now numbers.now flags.old.items }
{
    for at in numbers {
        tell_at(told, number, directories, sorted, makers, flags, *at);
    }
}

/// The same once what is known and seen may have changed at the outputs of the job of the number, where these were the flags, and among the numbers is that of each
/// maker which names the job: the flags of other jobs' paths stay. `OutOfMemory` where there is no memory for the answer.
///
/// The time is that of a copy of the flags, of a look at each of these makers, and of what the job makes as in `makers_told`.
pub fn makers_again<T: Told>(
    alloc: Global,
    told: &T,
    number: usize,
    job: &Job,
    makers: &[Maker],
    numbers: &[usize],
    flags: &[bool],
) -> Result<Vec<bool>, OutOfMemory>
    requires { AreNumbersOf number makers.now numbers.now }
    ensures { IfOk result (λ found. found.items ≡ flags_but (is_made_of (T.known told.now) (T.seen told.now) job.now) number makers.now flags.now) }
{
    let directories = directories_in(alloc, told, job.recipe.outputs.as_slice())?;
    let sorted = are_sorted(told, directories.as_slice());
    let mut found = Vec::from_slice(alloc, flags)?;
    found.truncate(makers.len());
    tell_each(
        told,
        number,
        directories.as_slice(),
        sorted,
        makers,
        numbers,
        &mut found,
    );
    Ok(found)
}
