// What is looked at in the files of an index.
use nzb_writer::{FileEntry, Index};

/// What a file of an index is to hold, beside the newsgroup `a.b` alone.
pub(crate) struct FileSaid<'a> {
    /// Which one it is, counted from 0.
    pub(crate) place: usize,
    pub(crate) poster: &'a [u8],
    pub(crate) date: u64,
    pub(crate) subject: &'a [u8],
    /// How many segments it has.
    pub(crate) count: usize,
    /// Some of them: which one it is, counted from 0, its number, its length and its message-id.
    pub(crate) segments: &'a [(usize, u32, u64, &'a [u8])],
}

/// Whether an index has so many files and these among them, and nothing is said of the whole.
pub(crate) fn has_files(index: &Index, count: usize, wanted: &[FileSaid<'_>]) -> bool {
    if index.metas.len() != 0 || index.files.len() != count {
        return false;
    }
    for said in wanted {
        match index.files.as_slice().get(said.place) {
            Some(file) => {
                if !is_file(file, said) {
                    return false;
                }
            }
            None => return false,
        }
    }
    true
}

fn is_file(file: &FileEntry, said: &FileSaid<'_>) -> bool {
    file.poster.as_slice() == said.poster
        && file.date == said.date
        && file.subject.as_slice() == said.subject
        && is_of_group(file)
        && file.segments.len() == said.count
        && has_segments(file, said.segments)
}

fn is_of_group(file: &FileEntry) -> bool {
    match file.groups.as_slice().get(0) {
        Some(group) => file.groups.len() == 1 && group.as_slice() == b"a.b".as_slice(),
        None => false,
    }
}

fn has_segments(file: &FileEntry, wanted: &[(usize, u32, u64, &[u8])]) -> bool {
    for (place, number, bytes, id) in wanted {
        match file.segments.as_slice().get(*place) {
            Some(segment) => {
                if segment.number != *number
                    || segment.bytes != *bytes
                    || segment.id.as_slice() != *id
                {
                    return false;
                }
            }
            None => return false,
        }
    }
    true
}
