//! Laws on the texts of replies, as contracts of functions that do nothing.
ghost use Rattle.std.specs.Prelude.{◌≡◌, ◌<◌, ◌^◌, ◌++◌, codes, length, slice_index_or, true, List, ℕ};
ghost use Rattle.std.specs.Str.Parse.{IsNumeral, digits_value};
ghost use Rattle.ded_model.specs.declared.bound.Bound.{Bound};
ghost use Rattle.ded_model.specs.declared.certificate.Entry.{Entry};
ghost use Rattle.ded_model.specs.declared.command.Refusal.{Refusal};
ghost use Rattle.ded_model.specs.declared.name.Column.{Column};
ghost use Rattle.ded_model.specs.declared.slot.Sort.{Sort};
ghost use Rattle.ded_model.specs.PlanForm.{PlanForm};
ghost use Rattle.ded_model.specs.Row.{Atom};
ghost use Rattle.ded_print.specs.Boxes.{rational_names, spans_text};
ghost use Rattle.ded_print.specs.Certificates.{apart_text};
ghost use Rattle.ded_print.specs.Lines.{LineReply, line_text, meeting_text, refusal_text, reply_line, reply_text};
ghost use Rattle.ded_print.specs.Lines.{is_one_line};
ghost use Rattle.ded_print.specs.Numbers.{count_text, number_text};
ghost use Rattle.ded_print.specs.Plans.{node_lines, plan_text};
ghost use Rattle.ded_print.specs.Quiet.{AreQuiet, IsQuietPlan};
ghost use Rattle.ded_print.specs.Told.{IsToldPlan};
ghost use Rattle.ded_print.specs.Tuples.{answer_text, stored_text};

/// The text of a number is its digits, without leading zeros: read in decimal it is the number, however great. A count
/// of at most 64 digits has the same text.
pub fn one_number()
    ensures value { (n : ℕ) → digits_value 10 (number_text n) ≡ n }
    ensures digits { (n : ℕ) → IsNumeral 10 (number_text n) }
    ensures leading { (n : ℕ) → 0 < n → 48 < slice_index_or (number_text n) 0 0 }
    ensures zero { number_text 0 ≡ codes "0" }
    ensures counts { (n : ℕ) → n < 10 ^ 64 → count_text n ≡ number_text n }
{}

/// The text of a reply of one line has no line feed before its end.
pub fn one_line()
    ensures { (reply : LineReply) → is_one_line (reply_line reply) ≡ true }
{}

/// The bytes written tell replies of one line one after another: where the texts of two replies, each with any bytes
/// behind it, are the same bytes, the replies are the same, and so are the bytes behind them.
pub fn one_reply()
    ensures { (reply other : LineReply) (xs ys : List ℕ) →
        reply_text reply ++ xs ≡ reply_text other ++ ys →
        (reply ≡ other) × (xs ≡ ys) }
{}

/// The bytes written tell a reply of one line from the tuples of a relation: no bytes begin with both texts.
pub fn no_line_of_tuples()
    ensures { (columns : List Column) (stored : List (ℕ × List Atom)) (reply : LineReply) (xs ys : List ℕ) →
        stored_text columns stored ++ xs ≡ reply_text reply ++ ys → ⊥ }
{}

/// Of two answers over one heading no text is a proper front of the other's, where no name has a blank, a line feed or
/// a quote. Texts in tuples may have any bytes.
pub fn one_answer()
    ensures { (columns : List Column) (ts us : List (List Atom)) (xs ys : List ℕ) → AreQuiet columns →
        answer_text columns ts ++ xs ≡ answer_text columns us ++ ys →
        (answer_text columns ts ≡ answer_text columns us) × (xs ≡ ys) }
{}

/// Of two plans no text is a proper front of the other's, where no name has a blank, a line feed or a quote.
pub fn one_plan()
    ensures { (f g : PlanForm) (xs ys : List ℕ) → IsQuietPlan f → IsQuietPlan g →
        plan_text f ++ xs ≡ plan_text g ++ ys → (plan_text f ≡ plan_text g) × (xs ≡ ys) }
{}

/// The lines of a plan tell the plan, and so does its text before any bytes, where no name has a blank, a line feed or
/// a quote, the slots of each scan have the sorts of its columns, and tuples are in normal form.
pub fn plans_told()
    ensures lines { (sorts : List ℕ → List Sort) (f g : PlanForm) → IsToldPlan sorts f → IsToldPlan sorts g →
        node_lines 0 f ≡ node_lines 0 g → f ≡ g }
    ensures texts { (sorts : List ℕ → List Sort) (f g : PlanForm) (xs ys : List ℕ) → IsToldPlan sorts f →
        IsToldPlan sorts g → plan_text f ++ xs ≡ plan_text g ++ ys → (f ≡ g) × (xs ≡ ys) }
{}

/// Of two lists of certificates no text is a proper front of the other's, and no bytes begin with the text of such a
/// list and with that of a meeting.
pub fn one_list_of_certificates()
    ensures texts { (es fs : List Entry) (xs ys : List ℕ) → apart_text es ++ xs ≡ apart_text fs ++ ys →
        (apart_text es ≡ apart_text fs) × (xs ≡ ys) }
    ensures meetings { (es : List Entry) (i j : ℕ) (xs ys : List ℕ) → apart_text es ++ xs ≡ meeting_text i j ++ ys → ⊥ }
{}

/// Of two lists of bounds, as many in one as in the other, for the columns of one heading no text is a proper front of
/// the other's, where no name has a blank, a line feed or a quote.
pub fn one_box()
    ensures { (columns : List Column) (bs cs : List (Bound × Bound)) (xs ys : List ℕ) → AreQuiet columns →
        length bs ≡ length cs → spans_text columns bs ++ xs ≡ spans_text columns cs ++ ys →
        (spans_text columns bs ≡ spans_text columns cs) × (xs ≡ ys) }
{}

/// No bytes begin both with the text of a refusal and with that of an answer, a plan, a list of certificates or a box.
pub fn refusals_apart()
    ensures answers { (columns : List Column) (ts : List (List Atom)) (r : Refusal) (xs ys : List ℕ) →
        answer_text columns ts ++ xs ≡ refusal_text r ++ ys → ⊥ }
    ensures plans { (f : PlanForm) (r : Refusal) (xs ys : List ℕ) → plan_text f ++ xs ≡ refusal_text r ++ ys → ⊥ }
    ensures certificates { (es : List Entry) (r : Refusal) (xs ys : List ℕ)
        → apart_text es ++ xs ≡ refusal_text r ++ ys → ⊥ }
    ensures nowhere { (r : Refusal) (xs ys : List ℕ) → line_text (codes "empty") ++ xs ≡ refusal_text r ++ ys → ⊥ }
    ensures no_rational { (r : Refusal) (xs ys : List ℕ) →
        line_text (codes "no rational column") ++ xs ≡ refusal_text r ++ ys → ⊥ }
    ensures boxes { (columns : List Column) (bs : List (Bound × Bound)) (r : Refusal)
        (xs ys : List ℕ) → AreQuiet columns →
        0 < length (rational_names columns) → 0 < length bs → spans_text columns bs ++ xs ≡ refusal_text r ++ ys → ⊥ }
{}
