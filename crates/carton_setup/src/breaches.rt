ghost use Rattle.carton_setup.specs.Rules.{fold_rule, panel_rule, tree_rule, line_rule, fit_rule};
ghost use Rattle.carton_setup.specs.Rules.{catalogue_rule, guides_rule};

use crate::breach::Breach;
use crate::refusal::Rule;
use carton_catalogue::{CatalogueError, FitError};
use carton_fold::FoldError;
use carton_panels::PanelError;
use carton_text::{JobError, LineError};
use carton_tree::TreeError;

impl Breach for FoldError {
    ghost broken = { fold_rule };

    fn rule(self) -> Option<Rule> {
        match self {
            FoldError::Memory => None,
            e => Some(Rule::Fold(e)),
        }
    }
}

impl Breach for PanelError {
    ghost broken = { panel_rule };

    fn rule(self) -> Option<Rule> {
        match self {
            PanelError::Memory => None,
            e => Some(Rule::Panel(e)),
        }
    }
}

impl Breach for TreeError {
    ghost broken = { tree_rule };

    fn rule(self) -> Option<Rule> {
        match self {
            TreeError::Memory => None,
            e => Some(Rule::Tree(e)),
        }
    }
}

impl Breach for LineError {
    ghost broken = { line_rule };

    fn rule(self) -> Option<Rule> {
        match self {
            LineError::Memory => None,
            e => Some(Rule::Line(e)),
        }
    }
}

impl Breach for JobError {
    ghost broken = { fit_rule };

    fn rule(self) -> Option<Rule> {
        match self {
            JobError::Memory => None,
            e => Some(Rule::Fit(e)),
        }
    }
}

impl Breach for CatalogueError {
    ghost broken = { catalogue_rule };

    fn rule(self) -> Option<Rule> {
        match self {
            CatalogueError::Memory => None,
            e => Some(Rule::Catalogue(e)),
        }
    }
}

impl Breach for FitError {
    ghost broken = { guides_rule };

    fn rule(self) -> Option<Rule> {
        Some(Rule::Guides(self))
    }
}
