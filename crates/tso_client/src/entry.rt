// Entries of the post's journal.
use pd_types::{Seen, Seq};

/// What a client did at the post.
#[derive(Clone, Copy, Debug, Drop, PartialEq, Eq)]
pub enum PostWhat {
    /// It left a note with this pair for a client.
    Told { to: u8, seen: Seen },
    /// It heard a note with this pair.
    Heard { seen: Seen },
    /// No note was left for it.
    Nothing,
}

/// What a client did at the post, on this line of its script.
#[derive(Clone, Copy, Debug, Drop, PartialEq, Eq)]
pub struct PostEntry {
    pub client: u8,
    pub line: u32,
    pub what: PostWhat,
}

/// The entries of a post, in the order in which they were made.
pub type PostJournal = Seq<PostEntry>;
