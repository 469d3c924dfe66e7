// The laws of LLB's messages, claimed: each function's contract is one law, and its body is empty.
ghost use Rattle.std.specs.Prelude.{◌≡◌, Some};
ghost use Rattle.llbmessages.specs.declared.op.Op.{Op as OpValue};
ghost use Rattle.llbmessages.specs.declared.definition.Definition.{Definition as DefinitionValue};
ghost use Rattle.llbmessages.specs.Op.{op_bytes, read_op, FitsOp};
ghost use Rattle.llbmessages.specs.Definition.{definition_bytes, read_definition};

/// An operation that was written is read as it was.
pub fn operations_read_back()
    ensures { (op : OpValue) → FitsOp op → read_op (op_bytes op) ≡ Some op }
{}

/// Two different operations have different bytes.
pub fn operations_differ()
    ensures { (this that : OpValue) → FitsOp this → FitsOp that → op_bytes this ≡ op_bytes that → this ≡ that }
{}

/// A definition that was written is read as it was.
pub fn definitions_read_back()
    ensures { (definition : DefinitionValue) → read_definition (definition_bytes definition) ≡ Some definition }
{}

/// Two different definitions have different bytes.
pub fn definitions_differ()
    ensures { (this that : DefinitionValue) → definition_bytes this ≡ definition_bytes that → this ≡ that }
{}
