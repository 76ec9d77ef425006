//! Laws of contents. Each function has an empty body: its contract is the law.

ghost use Rattle.std.specs.Prelude.{◌≡◌, ℕ, ◌≤◌, ◌↔◌, List, length, map};
ghost use Rattle.dm_words.specs.declared.extent.Extent.{Extent};
ghost use Rattle.dm_words.specs.declared.profile.Profile.{Profile};
ghost use Rattle.dm_words.specs.Laws.{AreCodewords, HasOneResult};
ghost use Rattle.dm_words.specs.Messages.{most_data};
ghost use Rattle.dm_words.specs.declared.contents.mark.Mark.{Mark};
ghost use Rattle.dm_words.specs.Designations.{AreDesignations};
ghost use Rattle.dm_words.specs.Designators.{IsDesignator, designator, most_assigned};
ghost use Rattle.dm_words.specs.Pads.{padded};
ghost use Rattle.dm_words.specs.Plain.{IsPlainWithPads};
ghost use Rattle.dm_words.specs.Contents.{ContentView, IsContent, Says};
ghost use Rattle.dm_words.specs.ContentForm.{content_form};
ghost use Rattle.dm_words.specs.ContentExtents.{as_content};
ghost use Rattle.dm_words.specs.Smallest.{IsPlainestContent, IsSmaller, IsSmallestContentFor, IsTaken, NoSizeSays};
ghost use Rattle.dm_layout.specs.declared.symbols.size.SizeChoice.{SizeChoice};
ghost use Rattle.dm_layout.specs.symbols.Sizes.{SizeEntry};
ghost use Rattle.dm_words.specs.ContentResults.{HasOneContentResult};

/// In each extent, a list of codewords, however long, says exactly one content and is refused with no fault, or is
/// refused with exactly one fault and says none. So it spells exactly one message, or is refused with exactly one fault
/// of a codeword.
pub fn one_content()
    ensures content { (extent : Extent) (words : List ℕ) → AreCodewords words
        → HasOneContentResult extent words }
    ensures message { (words : List ℕ) → AreCodewords words → HasOneResult words }
{}

/// What codewords say in the usual extent is a message, and they say it in the wide extent too.
pub fn usual_says_messages()
    ensures message { (words : List ℕ) (l : ContentView)
        → Says Extent.Usual words l → l ≡ as_content l.items }
    ensures wide { (words : List ℕ) (l : ContentView)
        → Says Extent.Usual words l → Says Extent.Wide words l }
{}

/// Each number of 0 to 999999 has exactly one designator, the one that is written for it.
pub fn designators_are_read_back()
    ensures { (words : List ℕ) (number : ℕ) → number ≤ most_assigned
        → IsDesignator words number ↔ (words ≡ designator number) }
{}

/// A list of codewords has exactly one list of designators, and these have the numbers of the marks of the content that
/// it says, in order; the places of both are others.
pub fn one_list_of_designators()
    ensures list { (words : List ℕ) (found other : List Mark) → AreDesignations words found
        → AreDesignations words other → found ≡ other }
    ensures numbers { (words : List ℕ) (l : ContentView) (found : List Mark) → Says Extent.Wide words l
        → AreDesignations words found
        → map (λ mark. mark.number) found ≡ map (λ mark. mark.number) l.marks }
{}

/// What codewords say is a content: its head is right, its bytes are 0 to 255, and its marks come in order.
pub fn said_is_content()
    ensures { (extent : Extent) (words : List ℕ) (l : ContentView)
        → Says extent words l → IsContent l }
{}

/// The normal form of a content under each profile, with pads up to any number of codewords that holds it and that a
/// symbol can have, has that many codewords, each of 0 to 255, and they say the content; and they are plain, with the
/// identifier of the ASCII form.
pub fn content_form_says()
    ensures content { (profile : Profile) (l : ContentView) (count : ℕ) → IsContent l
        → length (content_form profile l) ≤ count → count ≤ most_data
        → Says Extent.Wide (padded (content_form profile l) count) l }
    ensures count { (profile : Profile) (l : ContentView) (count : ℕ)
        → length (content_form profile l) ≤ count
        → length (padded (content_form profile l) count) ≡ count }
    ensures codewords { (profile : Profile) (l : ContentView) (count : ℕ) → IsContent l
        → AreCodewords (padded (content_form profile l) count) }
    ensures plain { (profile : Profile) (l : ContentView) → IsContent l
        → length (content_form profile l) ≤ most_data → IsPlainWithPads (content_form profile l) l }
{}

/// How far the smallest codewords of a content in an extent and a choice of sizes are determined, as
/// [`crate::smallest_words_to()`] gives them: whether there are any, and their size; all of them, where there is
/// room for the ASCII form; and whether they say the content in the usual extent. The wide extent never needs a larger
/// size than the usual one, and neither needs a larger one than a normal form.
pub fn smallest_content_words_are_alike()
    ensures size { (extent : Extent) (choice : SizeChoice) (size other_size : SizeEntry)
        (l : ContentView) (words other : List ℕ)
        → IsSmallestContentFor extent choice size words l
        → IsSmallestContentFor extent choice other_size other l → size ≡ other_size }
    ensures some { (extent : Extent) (choice : SizeChoice) (size : SizeEntry)
        (l : ContentView) (words : List ℕ)
        → IsSmallestContentFor extent choice size words l → NoSizeSays extent choice l → ⊥ }
    ensures ascii { (l : ContentView) (words other : List ℕ)
        → IsPlainestContent words l → IsPlainestContent other l → length words ≡ length other
        → length (content_form Profile.Ascii l) ≤ length words → words ≡ other }
    ensures usual { (l : ContentView) (words other : List ℕ)
        → IsPlainestContent words l → IsPlainestContent other l → length words ≡ length other
        → Says Extent.Usual words l ↔ Says Extent.Usual other l }
    ensures wide { (choice : SizeChoice) (size other_size : SizeEntry)
        (l : ContentView) (words other : List ℕ)
        → IsSmallestContentFor Extent.Usual choice size words l
        → IsSmallestContentFor Extent.Wide choice other_size other l
        → IsSmaller size other_size → ⊥ }
    ensures normal { (extent : Extent) (profile : Profile) (choice : SizeChoice)
        (size other_size : SizeEntry) (l : ContentView) (words : List ℕ)
        → IsContent l → IsSmallestContentFor extent choice size words l
        → IsTaken choice other_size
        → length (content_form profile l) ≤ other_size.data_count
        → IsSmaller other_size size → ⊥ }
{}
