//! Laws: each is proved as the contract of a function that does nothing.
ghost use Rattle.scripts.specs.Scripts.{ScriptsHaveOnePage};

/// Holds if an input of `script` has only one page, and only one number of its first invalid line, if any.
pub fn a_script_has_one_page()
    ensures { ScriptsHaveOnePage }
{
    panels::laws::a_text_defines_its_panels_once();
    world3270::laws::one_machine();
}
