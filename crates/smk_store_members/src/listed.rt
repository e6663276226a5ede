use smk_base::List;
use smk_record::Member;

/// What a listing of a folder with all that is under it comes to.
#[derive(Drop)]
pub enum Listed {
    /// All that is under it, in byte order.
    Members(List<Member>),
    /// A record can't tell what is under it: a name is no text or makes no path, or there are more than 20,000 of them.
    BadMember,
}
