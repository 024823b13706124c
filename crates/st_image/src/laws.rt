ghost use Rattle.std.specs.Prelude.{◌≡◌, ℕ, List};
ghost use Rattle.st_model.specs.{declared.fault.ImageFault.ImageFault, declared.head.ImageHead.ImageHead};
ghost use Rattle.st_model.specs.{Faults.{IsImageFault, IsWellFormed}, Machine.{State, Went}};
ghost use Rattle.st_model.specs.{Births.{Births, births}, Table.Table, Show.Shows, Start.begin, Saving.save};
ghost use Rattle.st_model.specs.View.{View, IsWhole};
ghost use Rattle.st_frames.specs.declared.frame.Frame.{Frame};
ghost use Rattle.st_image.specs.{HeadValues.{no_values, head_over}, inside.Reading.IsStart, inside.Back.CanStart};
ghost use Rattle.st_writer.specs.Written.{image_of};

/// The law that an image file has at most one fault.
pub fn fault_is_determined()
    ensures { (h : ImageHead) (bytes : List ℕ) (f g : ImageFault) → IsImageFault h bytes f →
        IsImageFault h bytes g → f ≡ g }
{}

/// The law that an image file has no fault exactly where it is well-formed.
pub fn no_fault_is_well_formed()
    ensures without { (h : ImageHead) (bytes : List ℕ) → ((f : ImageFault) → ¬ IsImageFault h bytes f) →
        IsWellFormed h bytes }
    ensures within { (h : ImageHead) (bytes : List ℕ) → IsWellFormed h bytes → (f : ImageFault) →
        ¬ IsImageFault h bytes f }
{}

/// The law that the book's machine begins with each well-formed image.
pub fn well_formed_begins()
    ensures { (h : ImageHead) (bytes : List ℕ) → IsWellFormed h bytes →
        (s : State Births) × (begin h bytes ≡ Went tt s) }
{}

/// The law that what is written is read back. Where the registers can be fetched from what a memory
/// contains, its image is well-formed; and whatever memory is read from it has the same objects, capacities
/// and tables of names.
pub fn image_back()
    ensures formed { (v : View) → IsWhole v → CanStart v →
        IsWellFormed (head_over no_values (image_of v)) (image_of v) }
    ensures objects { (v w : View) (f : Frame) → IsWhole v →
        IsStart (head_over no_values (image_of v)) (image_of v) w f → w.objects ≡ v.objects }
    ensures head { (v w : View) (f : Frame) → IsWhole v →
        IsStart (head_over no_values (image_of v)) (image_of v) w f → w.head ≡ v.head }
{}

/// The law that what was saved or read can start: the registers can be fetched from the objects of a table
/// that shows what saving left, and from those of a memory that an image was read into.
pub fn can_start()
    ensures saved { (s t : State Births) (c : State Table) (v : View) → save births s ≡ Went tt t →
        Shows c t → v.objects ≡ c.memory → CanStart v }
    ensures read { (h : ImageHead) (bytes : List ℕ) (v : View) (f : Frame) → IsStart h bytes v f
        → CanStart v }
{}
