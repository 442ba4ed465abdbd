//! Laws of printing and reading that no caller runs.

ghost use Rattle.print_again.specs.Laws.{PlacesDontMatter, UnplacedIsRead, PlacesMayChange, CanonicalIsRead, LaidIsCut, LaidIsCutOnce, PrintIsCut, PrintIsRead, PrintIsReadAsIt, PrintHasNoPlaces, PrintIsFixed};

/// Where the tokens of a program stand has nothing to do with what it is: tokens at other places spell the same program
/// but for places, all at one place spell the program without its places, and its canonical tokens spell it too,
/// wherever they stand.
pub fn places_dont_matter()
    ensures one { PlacesDontMatter }
    ensures unplaced { UnplacedIsRead }
    ensures moved { PlacesMayChange }
    ensures canonical { CanonicalIsRead }
{}

/// The text of laid tokens that make whole statements, with literals over several lines too, breaks no rule of lines;
/// its words are these tokens, and it has no others.
pub fn laid_is_cut_again()
    ensures words { LaidIsCut }
    ensures once { LaidIsCutOnce }
{}

/// What is printed of a program that some source has is a source of its canonical tokens: of one program, which is the
/// same but for places, and is printed as the same text.
pub fn print_is_read_again()
    ensures words { PrintIsCut }
    ensures read { PrintIsRead }
    ensures once { PrintIsReadAsIt }
    ensures placeless { PrintHasNoPlaces }
    ensures fixed { PrintIsFixed }
{}
