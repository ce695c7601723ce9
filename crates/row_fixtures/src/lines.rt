// Lists of lines.
use lists::Lines;

/// Whether the lines are these, with bars between them.
pub fn are_lines(lines: &Lines, wanted: &str) -> bool {
    let mut count = 0;
    for line in wanted.split('|') {
        if count >= lines.len() || lines.line(count) != line.as_bytes() {
            return false;
        }
        count += 1;
    }
    count == lines.len()
}
