//! Flags by number.

ghost use Rattle.std.specs.Prelude.{◌≡◌, slice_index_or, false};
ghost use Rattle.smk_drive_pick.specs.Told.{has_flag};

/// What is told in this place; false where nothing is.
pub(crate) fn flag_at(flags: &[bool], number: usize) -> bool
    ensures { result ≡ slice_index_or flags.now number false }
{
    match flags.get(number) {
        Some(flag) => *flag,
        None => false,
    }
}

/// What is told in the place of the link; false where there is none.
pub(crate) fn has_flag(flags: &[bool], link: Option<usize>) -> bool
    ensures { result ≡ has_flag flags.now link }
{
    match link {
        Some(number) => flag_at(flags, number),
        None => false,
    }
}
