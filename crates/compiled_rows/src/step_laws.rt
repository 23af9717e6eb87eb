// Laws of the transforms that a compiled specification writes for steps.
ghost use Rattle.compiled_rows.specs.Steps.{AllStepsAgree, PlansFit, StepsAgree};

/// The numbers of all steps of a plan are those of 32 bits.
pub fn plans_fit()
    ensures { PlansFit }
{}

/// A step and its transform make the same of the same rows.
pub fn steps_agree()
    ensures { StepsAgree }
{}

/// So do steps one after the other.
pub fn all_steps_agree()
    ensures { AllStepsAgree }
{}
