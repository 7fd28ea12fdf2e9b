ghost use Rattle.file_names.specs.Laws.{SpelledName};
ghost use Rattle.file_names.specs.Spelling.{OneName};

/// Law: a text is the spelling of at most one name.
pub fn one_name()
    ensures { OneName }
{}

/// Law: a name is read from its spelling, what is read from a text is spelled so, and no spelling
/// is empty.
pub fn spelling_is_read()
    ensures { SpelledName }
{}
