// Writing an NZB text.
ghost use Rattle.std.specs.Prelude.{◌≡◌, ◌++◌, ◌+◌, ◌≤◌, ℕ, List, length, drop, OnOk, OnErr};
ghost use Rattle.std.specs.Fmt.{decimal};
ghost use Rattle.std.specs.List.{flat_map, prefix_len};
ghost use Rattle.nzb_writer.specs.Canonical.{escaped, file_tag, file_text, group_text, head_text, is_plain, meta_text, nzb_text, reference_of, segment_text};

use crate::{FileEntry, Index, Meta, Segment};
use lists::{Bytes, Memory};
use numbers::write_dec;

/// Appends the canonical text of an index (NZB 1.1): lines that each end with LF, and in values and texts references for
/// `&`, `<`, `>`, `"`, `'` and the bytes 9, 10 and 13. Where memory runs out, the output is as it was.
///
/// The text of an index that is valid is read to it again, if it is no longer than a text may be.
pub fn write_nzb(index: &Index, out: &mut Bytes) -> Result<(), Memory>
    ensures ok { OnOk result (out.new ≡ out.old ++ nzb_text index.now) }
    ensures err { OnErr result (out.new ≡ out.old) }
{
    let before = out.len();
    match append_nzb(index, out) {
        Ok(()) => Ok(()),
        Err(Memory) => {
            out.truncate(before);
            Err(Memory)
        }
    }
}

// The same, but it leaves what it has appended where memory runs out. So do all below.
fn append_nzb(index: &Index, out: &mut Bytes) -> Result<(), Memory>
    ensures ok { OnOk result (out.new ≡ out.old ++ nzb_text index.now) }
    ensures err { OnErr result ((more : List ℕ) × (out.new ≡ out.old ++ more)) }
{
    out.extend(
        b"<?xml version=\"1.0\" encoding=\"UTF-8\"?>\n\
        <!DOCTYPE nzb PUBLIC \"-//newzBin//DTD NZB 1.1//EN\" \"http://www.newzbin.com/DTD/nzb/nzb-1.1.dtd\">\n\
        <nzb xmlns=\"http://www.newzbin.com/DTD/2003/nzb\">\n",
    )?;
    append_head(index.metas.as_slice(), out)?;
    append_files(index.files.as_slice(), out)?;
    out.extend(b"</nzb>\n")?;
    Ok(())
}

// The head, if anything is said in it.
fn append_head(metas: &[Meta], out: &mut Bytes) -> Result<(), Memory>
    ensures ok { OnOk result (out.new ≡ out.old ++ head_text metas.now) }
    ensures err { OnErr result ((more : List ℕ) × (out.new ≡ out.old ++ more)) }
{
    if metas.is_empty() {
        return Ok(());
    }
    out.extend(b"<head>\n")?;
    for meta in metas {
        append_meta(meta, out)?;
    }
    out.extend(b"</head>\n")?;
    Ok(())
}

fn append_meta(meta: &Meta, out: &mut Bytes) -> Result<(), Memory>
    ensures ok { OnOk result (out.new ≡ out.old ++ meta_text meta.now) }
    ensures err { OnErr result ((more : List ℕ) × (out.new ≡ out.old ++ more)) }
{
    out.extend(b"<meta type=\"")?;
    append_escaped(meta.kind.as_slice(), out)?;
    out.extend(b"\">")?;
    append_escaped(meta.text.as_slice(), out)?;
    out.extend(b"</meta>\n")?;
    Ok(())
}

fn append_files(files: &[FileEntry], out: &mut Bytes) -> Result<(), Memory>
    ensures ok { OnOk result (out.new ≡ out.old ++ flat_map file_text files.now) }
    ensures err { OnErr result ((more : List ℕ) × (out.new ≡ out.old ++ more)) }
{
    for file in files {
        append_file(file, out)?;
    }
    Ok(())
}

fn append_file(file: &FileEntry, out: &mut Bytes) -> Result<(), Memory>
    ensures ok { OnOk result (out.new ≡ out.old ++ file_text file.now) }
    ensures err { OnErr result ((more : List ℕ) × (out.new ≡ out.old ++ more)) }
{
    append_file_tag(file, out)?;
    out.extend(b"<groups>\n")?;
    append_groups(file.groups.as_slice(), out)?;
    out.extend(b"</groups>\n<segments>\n")?;
    append_segments(file.segments.as_slice(), out)?;
    out.extend(b"</segments>\n</file>\n")?;
    Ok(())
}

fn append_file_tag(file: &FileEntry, out: &mut Bytes) -> Result<(), Memory>
    ensures ok { OnOk result (out.new ≡ out.old ++ file_tag file.now) }
    ensures err { OnErr result ((more : List ℕ) × (out.new ≡ out.old ++ more)) }
{
    out.extend(b"<file poster=\"")?;
    append_escaped(file.poster.as_slice(), out)?;
    out.extend(b"\" date=\"")?;
    append_number(file.date, out)?;
    out.extend(b"\" subject=\"")?;
    append_escaped(file.subject.as_slice(), out)?;
    out.extend(b"\">\n")?;
    Ok(())
}

fn append_groups(groups: &[Bytes], out: &mut Bytes) -> Result<(), Memory>
    ensures ok { OnOk result (out.new ≡ out.old ++ flat_map group_text groups.now) }
    ensures err { OnErr result ((more : List ℕ) × (out.new ≡ out.old ++ more)) }
{
    for group in groups {
        append_group(group.as_slice(), out)?;
    }
    Ok(())
}

fn append_group(group: &[u8], out: &mut Bytes) -> Result<(), Memory>
    ensures ok { OnOk result (out.new ≡ out.old ++ group_text group.now) }
    ensures err { OnErr result ((more : List ℕ) × (out.new ≡ out.old ++ more)) }
{
    out.extend(b"<group>")?;
    append_escaped(group, out)?;
    out.extend(b"</group>\n")?;
    Ok(())
}

fn append_segments(segments: &[Segment], out: &mut Bytes) -> Result<(), Memory>
    ensures ok { OnOk result (out.new ≡ out.old ++ flat_map segment_text segments.now) }
    ensures err { OnErr result ((more : List ℕ) × (out.new ≡ out.old ++ more)) }
{
    for segment in segments {
        append_segment(segment, out)?;
    }
    Ok(())
}

fn append_segment(segment: &Segment, out: &mut Bytes) -> Result<(), Memory>
    ensures ok { OnOk result (out.new ≡ out.old ++ segment_text segment.now) }
    ensures err { OnErr result ((more : List ℕ) × (out.new ≡ out.old ++ more)) }
{
    out.extend(b"<segment bytes=\"")?;
    append_number(segment.bytes, out)?;
    out.extend(b"\" number=\"")?;
    append_number(u64::from(segment.number), out)?;
    out.extend(b"\">")?;
    append_escaped(segment.id.as_slice(), out)?;
    out.extend(b"</segment>\n")?;
    Ok(())
}

fn append_number(number: u64, out: &mut Bytes) -> Result<(), Memory>
    ensures ok { OnOk result (out.new ≡ out.old ++ decimal number) }
    ensures err { OnErr result (out.new ≡ out.old) }
{
    let mut digits = [0; 20];
    let len = write_dec(number, &mut digits);
    out.extend(&digits[..len])
}

// A text with its references. What needs none goes on whole, from one reference to the next.
fn append_escaped(text: &[u8], out: &mut Bytes) -> Result<(), Memory>
    ensures ok { OnOk result (out.new ≡ out.old ++ escaped text.now) }
    ensures err { OnErr result ((more : List ℕ) × (out.new ≡ out.old ++ more)) }
{
    let mut at = 0;
    while at < text.len() {
        let end = plain_end(text, at);
        out.extend(&text[at..end])?;
        if end == text.len() {
            return Ok(());
        }
        out.extend(reference(text[end]))?;
        at = end + 1;
    }
    Ok(())
}

// The place of the first byte, from a place on, that is written as a reference, or the text's end.
fn plain_end(text: &[u8], at: usize) -> usize
    requires { at ≤ length text.now }
    ensures within { result ≤ length text.now }
    ensures end { result ≡ at + prefix_len is_plain (drop at text.now) }
{
    let mut end = at;
    while end < text.len() && is_plain(text[end]) {
        end += 1;
    }
    end
}

fn is_plain(byte: u8) -> bool
    ensures { result ≡ is_plain byte }
{
    reference(byte).is_empty()
}

// The reference that a byte is written as, or nothing for a byte that is written as it is.
fn reference(byte: u8) -> &'static [u8]
    ensures { result.now ≡ reference_of byte }
{
    match byte {
        b'&' => b"&amp;",
        b'<' => b"&lt;",
        b'>' => b"&gt;",
        b'"' => b"&quot;",
        b'\'' => b"&apos;",
        b'\t' => b"&#9;",
        b'\n' => b"&#10;",
        b'\r' => b"&#13;",
        _ => b"",
    }
}
