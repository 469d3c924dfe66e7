// The laws of a bundle's faults and of its check, claimed: each function's contract is one law, and its body names the laws of crates below that it rests on.
ghost use Rattle.std.specs.Prelude.{◌≡◌, ℕ, List};
ghost use Rattle.expand.specs.declared.reason.Rejection.{Rejection};
ghost use Rattle.checks.specs.Checked.{IsCheckOf};
ghost use Rattle.checks.specs.Checks.{AreFaultsOf};
ghost use Rattle.checks.specs.declared.checked.Checked.{Checked};
ghost use Rattle.checks.specs.declared.form.Form.{Form};

/// Each bundle has one list of faults.
pub fn each_bundle_has_its_faults()
    ensures exists { (bytes : List ℕ) → (faults : List Rejection) × AreFaultsOf bytes faults }
    ensures unique { (bytes : List ℕ) (faults others : List Rejection) → AreFaultsOf bytes faults → AreFaultsOf bytes others → faults ≡ others }
{
    bundle::laws::bytes_are_read_or_refused::<imageconfig::Config>();
    dockerfile::laws::each_text_has_its_faults();
    dockerfile::laws::the_first_fault_is_the_refusal();
    dockerfile::laws::answers_are_unique();
    dockerfile::laws::instructions_of_a_text_are_whole();
    stages::laws::the_first_fault_is_the_refusal();
    stages::laws::what_is_resolved_is_a_table();
    evaluation::laws::every_table_is_evaluated_or_refused();
}

/// Checking gives one text for each bundle in each form, and says one thing of whether it is sound, whatever the form and the name of its Dockerfile: what
/// is shown is a function of these and the bytes.
pub fn each_bundle_has_its_check()
    ensures exists { (file bytes : List ℕ) (form : Form) → (checked : Checked) × IsCheckOf file bytes form checked }
    ensures unique { (file bytes : List ℕ) (form : Form) (one other : Checked) → IsCheckOf file bytes form one → IsCheckOf file bytes form other → one ≡ other }
    ensures sound { (file called bytes : List ℕ) (form another : Form) (one other : Checked) → IsCheckOf file bytes form one
        → IsCheckOf called bytes another other → one.is_sound ≡ other.is_sound }
{
    each_bundle_has_its_faults();
}
