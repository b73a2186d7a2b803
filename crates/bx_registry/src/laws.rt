ghost use Rattle.bx_registry.specs.Laws.{StepsAgree, RunsAgree};

/// Proves that a registry and its roll, which the program stores, judge one element alike.
///
/// They agree after it, too.
pub fn roll_judges_element_as_registry()
    ensures { StepsAgree }
{}

/// Proves that a registry and its roll, which the program stores, judge any list alike.
///
/// They agree after it, too.
pub fn roll_judges_list_as_registry()
    ensures { RunsAgree }
{}
