// Lines of a script that are there for its readers alone.
ghost use Rattle.script.specs.Remarks.{blank, marked, remark};
ghost use Rattle.std.specs.Prelude.{◌≡◌};

// Whether a line has nothing but spaces.
fn is_blank(line: &[u8]) -> bool
    ensures { result ≡ blank line.now }
{
    line.iter().all(|byte| *byte == b' ')
}

// Whether a line begins with the mark of a remark.
fn has_mark(line: &[u8]) -> bool
    ensures { result ≡ marked line.now }
{
    line.first() == Some(&b'#')
}

// Whether a line of the script is passed over.
pub(crate) fn is_remark(line: &[u8]) -> bool
    ensures { result ≡ remark line.now }
{
    has_mark(line) || is_blank(line)
}
