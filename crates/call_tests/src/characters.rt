use ascii::*;

// No line of a file and no word of a command is of blanks alone, or has a line feed beside blanks.
#[test]
fn a_text_is_cut_at_its_blanks(rt: HostRuntime) {
    assert!(rt; first_piece("  ") == ("", ""));
    assert!(rt; trimmed(" \ta b\n\t ") == "a b\n" && is_blank(b'\t') && !is_blank(b'\n'));
}
