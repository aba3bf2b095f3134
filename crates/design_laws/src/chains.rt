//! All ports of a connection chain have one type, and chains with one last port have one first port. Each law
//! is the contract of a function that does nothing.
ghost use Rattle.std.specs.Prelude.{◌≡◌, ℕ, [], Bool, List};
ghost use Rattle.aadl_tree.specs.Declarations.{PackageTree};
ghost use Rattle.aadl_chains.specs.Chains.{Port, ConnectionAt, Leads, IsStart};
ghost use Rattle.aadl_instance.specs.InstancesByPaths.{InstanceParts, IsFlat};
ghost use Rattle.model_violations.specs.UsedDeclarations.{IsUse};
ghost use Rattle.model_violations.specs.Violations.{shown_by, used_findings};
ghost use Rattle.design_laws.specs.proof.PortKinds.{port_kind};

/// If the declarations in use have no findings, all ports of a connection chain have one type.
pub fn chains_have_one_type()
    ensures { (tree : PackageTree ℕ) (name : List ℕ) (parts : InstanceParts) (used : ℕ → Bool) → IsFlat tree name parts
        → IsUse tree parts.root used
        → used_findings tree (shown_by tree parts) used ≡ [] → (chain : List ConnectionAt) (from to : Port)
        → Leads tree parts.root chain from to
        → port_kind tree parts.root from ≡ port_kind tree parts.root to }
{}

/// Connection chains with one last port have one first port.
pub fn ports_have_one_start()
    ensures { (tree : PackageTree ℕ) (name : List ℕ) (parts : InstanceParts) → IsFlat tree name parts
        → (first second : List ConnectionAt) (from other to : Port)
        → IsStart tree parts.root from → IsStart tree parts.root other → Leads tree parts.root first from to
        → Leads tree parts.root second other to
        → from ≡ other }
{}
