// The laws of a post's session.
ghost use Rattle.poster.specs.SessionLaws.{EachArticleOnce, MadeArticlesAreTheFiles};

/// In what is said to post some articles, each stands once, in order.
pub fn each_article_once()
    ensures { EachArticleOnce }
{}

/// Where the input tells its file, and an article was made for each part, they are the file's articles.
pub fn made_articles_are_the_files()
    ensures { MadeArticlesAreTheFiles }
{}
