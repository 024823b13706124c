//! What joins the calls over a memory's table to those over births, in which nothing is reclaimed or moved.

ghost use Rattle.st_install.specs.inside.Same.{ClassShows, NamesShow, ReadyShows, InstallShows, InstallSettles};
ghost use Rattle.st_install.specs.inside.Goes.{ReadyInstalls};
ghost use Rattle.st_install.specs.inside.Gains.{Gains, GainsStay};
ghost use Rattle.st_install.specs.inside.Fits.{TextsFit};
ghost use Rattle.st_model.specs.{Table.table, Births.births};

/// Where a table shows births, `class_of_name`, `names` and `ready` answer over it what they answer over the births, each
/// object by its pointer, and change nothing. What is then installed in the table of a running machine is what is installed in
/// the births: the table shows them again, also once what nothing supports is dropped.
pub fn install_shows_births()
    ensures class { ClassShows }
    ensures names { NamesShow }
    ensures ready { ReadyShows }
    ensures install { InstallShows }
    ensures settles { InstallSettles }
{}

/// What is ready is installed: over a memory that makes an object only where there is room, no step of `install` fails. Where the
/// class is orderly, the search for a method then finds the new one for its selector, and for every other selector what it found
/// before; also once what nothing supports is dropped, if the class is kept.
pub fn install_gains()
    ensures installs { ReadyInstalls }
    ensures gains { Gains }
    ensures stay { GainsStay }
{}

/// No text that a definition may have comes to an object of more than 65,535 words: neither the Symbols that its method names, nor the
/// objects of its literals, nor the method.
pub fn texts_fit()
    ensures table { TextsFit table }
    ensures births { TextsFit births }
{}
