//! Laws of files that no caller runs.

ghost use Rattle.module_units.specs.Laws.{OwnTree};

/// A file without a module whose USE statements name ISO_FORTRAN_ENV without new names gives its own tree but for
/// those statements.
pub fn law_file_without_modules()
    ensures { OwnTree }
{}
