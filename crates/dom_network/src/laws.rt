//! What holds of every network.
ghost use Rattle.dom_network.specs.NetworkLaws.{AdmittedIsCompleted, HasOneCompletion, HasOrder};

use crate::network::Network;

impl Network {
    /// All that is asked of a network holds of this one, in some order of its variables. The call does nothing.
    pub fn has_order(&self)
        ensures { HasOrder self.now }
    {
        let _ = &self.constraints;
    }

    /// The values of the free variables determine the others. The call does nothing.
    pub fn one_completion(&self)
        ensures { HasOneCompletion self.now }
    {
        let _ = &self.constraints;
    }

    /// An assignment that satisfies every constraint, with free values from the domains, is the completion of these. The call does nothing.
    pub fn admitted_is_completed(&self)
        ensures { AdmittedIsCompleted self.now }
    {
        let _ = &self.constraints;
    }
}
