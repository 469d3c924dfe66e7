// Laws of ignore files, claimed: each function's contract is one law, and its body is empty.
ghost use Rattle.std.specs.Prelude.{◌≡◌, ◌-◌, ℕ, List, Some, Ok, slice_get};
ghost use Rattle.std.specs.Str.Lines.{lines};
ghost use Rattle.ignorefile.specs.declared.line.Line.{Line};
ghost use Rattle.ignorefile.specs.File.{without_byte_order_mark, line_of, ignore_of, numbers_of};

/// The line at a position of an ignore file is what the text says that has the number at that position.
pub fn a_line_stands_at_its_number()
    ensures { (bytes : List ℕ) (said : List Line) (n : ℕ) (line : Line) → ignore_of bytes ≡ Ok said → slice_get said n ≡ Some line
        → (number : ℕ) × ((text : List ℕ) × ((slice_get (numbers_of bytes) n ≡ Some number)
        × ((slice_get (lines (without_byte_order_mark bytes)) (number - 1) ≡ Some text) × (line_of text ≡ Some (Some line))))) }
{}
