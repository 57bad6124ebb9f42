//! Laws: facts that are proved for every field and every record. Each function does nothing. Its
//! clauses are the law, and a proof of yours can cite them.

ghost use Rattle.std.specs.Prelude.{Bool, List, ℕ};
ghost use Rattle.comfy_parts.specs.Text.{Text};
ghost use Rattle.csv_records.specs.Beginning.{FirstRecordsStay};
ghost use Rattle.csv_records.specs.Cleaning.{HoldsNoControls, IsCleanedOnce};
ghost use Rattle.csv_records.specs.Reading.{RecordsAreOne};
ghost use Rattle.csv_records.specs.declared.options.InputOptions.{InputOptions};

/// An input and its options determine the list of records: two lists for which the definition
/// `AreRecordsFor` holds are equal.
pub fn records_are_one()
    ensures { (options : InputOptions) (input : Text) (records others : List (List Text))
        → RecordsAreOne options input records others }
{}

/// All records in a beginning of an input are the first records of the whole input, if the
/// beginning is enough for them (definition `IsEnough`). The rest of the input doesn't matter. No
/// beginning in UTF-16 is enough.
pub fn first_records_stay()
    ensures { (options : InputOptions) (most : ℕ) (beginning after : Text)
        (records all : List (List Text))
        → FirstRecordsStay options most beginning after records all }
{}

/// The only control characters in a field that `cleaned` returns are line feeds, and those of SGR
/// sequences if `keeps_sequences` is true. The field has no character that changes the direction of
/// text. A second cleaning leaves it unchanged.
pub fn cleaned_fields_hold_no_controls()
    ensures none { (keeps_sequences : Bool) (field : List ℕ)
        → HoldsNoControls keeps_sequences field }
    ensures once { (keeps_sequences : Bool) (field : List ℕ)
        → IsCleanedOnce keeps_sequences field }
{}
