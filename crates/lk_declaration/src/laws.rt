//! What is so of the definitions.

ghost use Rattle.lk_declaration.specs.Courses.{CoursesAreSteps};

/// The run of a program with nothing after it is the run of its steps, by which the plain verdict
/// of a unit is told.
pub fn courses_are_steps()
    ensures { CoursesAreSteps }
{}
